//! What was drawn before: the diagnostics of cargo, and the files that places lie in.

ghost use Rattle.std.specs.Prelude.{◌≡◌, [], IfOk};
ghost use Rattle.json_lines.specs.Field.{lent_text};
ghost use Rattle.redraw_command.specs.Seen as spec;
ghost use Rattle.redraw_command.specs.Seen.{IsDigestOf, IsDigestOfWhole, Keeps, digests_of};
ghost use Rattle.serde_json.specs.View.{view};

use json_lines::lenient::text_field;
use serde_json::Value;
use sha2::{Digest, Sha512_256};
use std::alloc::{AllocError, Global};
use std::collections::{BTreeSet, HashSet};
use std::hash::{BuildHasherDefault, FoldHasher};

/// How many diagnostics are kept in mind.
const MOST: usize = 16_384;

/// A byte that is in no text: it ends what is digested of a diagnostic without a text, which no text is then.
const NO_TEXT: u8 = 0xff;

/// The diagnostics of cargo that were drawn, by what their texts have for a digest: of 32 bytes each, so that a run
/// takes no memory for their texts. No two texts are known that have the same.
#[derive(Drop)]
pub struct SeenDiagnostics {
    alloc: Global,
    digests: HashSet<[u8; 32]>,
}

impl SeenDiagnostics {
    /// None was drawn.
    pub fn new(alloc: Global) -> SeenDiagnostics
        ensures none { digests_of result ≡ [] }
    {
        SeenDiagnostics {
            alloc,
            digests: HashSet::new(alloc),
        }
    }

    /// Keeps a diagnostic in mind, and says whether it was kept before. When too many are kept, all others are
    /// forgotten first.
    pub fn keeps(&mut self, message: &Value) -> Result<bool, AllocError>
        ensures keeps { IfOk result (λ was.
            Keeps (view message.now) was (digests_of self.old) (digests_of self.new)) }
    {
        let digest = digest_of(self.alloc, message)?;
        if self.digests.contains(&digest) {
            return Ok(true);
        }
        if self.digests.len() >= MOST {
            self.digests.clear();
        }
        self.digests.insert(digest)?;
        Ok(false)
    }
}

/// The digest by which a diagnostic is told from others: of the text that rustc has of it, or of all of it.
fn digest_of(alloc: Global, message: &Value) -> Result<[u8; 32], AllocError>
    ensures of { IfOk result (λ digest. IsDigestOf (view message.now) digest) }
{
    match own_text(message) {
        Some(text) => Ok(Sha512_256::digest(text.as_bytes())),
        None => digest_of_whole(alloc, message),
    }
}

/// The text that rustc has of a diagnostic, by which cargo tells them, if it isn't empty.
fn own_text(message: &Value) -> Option<&str>
    ensures value { lent_text result ≡ spec.own_text (view message.now) }
{
    match text_field(message, "rendered") {
        Some(text) if !text.is_empty() => Some(text),
        _ => None,
    }
}

/// The digest of all of a diagnostic.
fn digest_of_whole(alloc: Global, message: &Value) -> Result<[u8; 32], AllocError>
    ensures of { IfOk result (λ digest. IsDigestOfWhole (view message.now) digest) }
{
    let mut bytes = message.to_string(alloc)?.into_bytes();
    bytes.push(NO_TEXT)?;
    Ok(Sha512_256::digest(&bytes))
}

/// Names, each once. They are in order, and not hashed: whoever writes a log could choose names with one hash.
#[derive(Drop)]
pub struct Names {
    alloc: Global,
    names: BTreeSet<String>,
}

impl Names {
    /// No name.
    pub fn new(alloc: Global) -> Names {
        Names {
            alloc,
            names: BTreeSet::new(alloc),
        }
    }

    /// Adds a name, unless it is there.
    pub fn add(&mut self, name: &str) -> Result<(), AllocError> {
        if !self.names.contains(name) {
            self.names.insert(String::from_str(self.alloc, name)?)?;
        }
        Ok(())
    }

    /// How many there are.
    pub fn len(&self) -> u64 {
        self.names.len() as u64
    }
}
