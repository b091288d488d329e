// Job files of the old rule, by which a missing head meant one fault, rewritten so that they mean the same by today's.

#![tactic(auto)]

ghost use Rattle.std.specs.Prelude.{◌≡◌};
ghost use Rattle.text.specs.Text.{Adds};
ghost use Rattle.text.specs.Growing.{Puts};
ghost use Rattle.jobfile.specs.Meaning.{headed, Good};
ghost use Rattle.rewrite_file.specs.Rewriting.{with_head, rewritten};

use text::{MOST_BYTES, Text};

// No rewritten file, and no line in its place, is longer.
pub const MOST_FILE: usize = 1_285;

// Whether a good file has a head: only a head has the length 3, whose low byte stands first.
fn has_head(file: &[u8]) -> bool
    requires { Good file.now 256 }
    ensures { result ≡ headed file.now }
{
    file.starts_with(&[3])
}

// A good file, with a head of 1 if it has none.
fn put_with_head(text: &mut Text<'_>, file: &[u8])
    requires { Good file.now 256 }
    ensures { Puts (with_head file.now) text.old text.new }
{
    if !has_head(file) {
        text.put(b"\x03\0\x01\0\x01");
    }
    text.put(file);
}

// The rewritten file, or the line in its place.
fn put_rewritten(text: &mut Text<'_>, file: &[u8])
    ensures { Puts (rewritten file.now) text.old text.new }
{
    if MOST_BYTES < file.len() {
        return text.put_too_long();
    }
    let mut table = [0; 256];
    match jobfile::read(file, &mut table) {
        Err(refusal) => text.put_refusal(refusal),
        Ok(_) => put_with_head(text, file),
    }
}

// Rewrite: the rewritten file, or the line in its place, at the start of the lent buffer, and how many bytes of it are there. A buffer of MOST_FILE bytes
// holds all of it.
pub fn rewrite(file: &[u8], buffer: &mut [u8]) -> usize
    ensures { Adds (rewritten file.now) buffer.old 0 buffer.new result }
{
    let mut text = Text::new(buffer);
    put_rewritten(&mut text, file);
    text.at
}
