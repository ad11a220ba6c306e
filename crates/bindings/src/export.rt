//! The exported calls. A caller in C passes memory of the lengths that it names, and no two parts of it overlap where
//! one of them is written.

ghost use Rattle.std.specs.Prelude.{◌≡◌};
ghost use Rattle.bindings.specs.Replies.{SeparateReply, FormReply};

use crate::letter::Letter;
use crate::reply::Reply;
use words::{form, separate};

/// Writes the first telling row of two words at the start of `row`, as `words::separate` does.
#[unsafe(no_mangle)]
pub extern "C" fn zuligmaw_separate(
    left: &[Letter],
    right: &[Letter],
    row: &mut [Letter],
    scratch: &mut [u32],
) -> Reply
    ensures { SeparateReply left.now right.now row.old scratch.old result row.new scratch.new }
{
    Reply::from(separate(left, right, row, scratch))
}

/// Writes the form of a word at `k` at the start of `out`, as `words::form` does.
#[unsafe(no_mangle)]
pub extern "C" fn zuligmaw_form(
    word: &[Letter],
    k: u16,
    out: &mut [Letter],
    scratch: &mut [u32],
) -> Reply
    ensures { FormReply k word.now out.old scratch.old result out.new scratch.new }
{
    Reply::from(form(word, k, out, scratch))
}
