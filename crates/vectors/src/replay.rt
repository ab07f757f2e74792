// What is printed of a stored file.
ghost use Rattle.std.specs.Prelude.{◌≡◌, IfOk, string_bytes};
ghost use Rattle.std.specs.Result.{result_map_both};
ghost use Rattle.vectors.specs.Replay.{Answered, answer_line, replayed};

use super::hex::bytes_of;
use listing::lines::FaultLine;
use std::alloc::{AllocError, Global};
use treefile::check::check;
use treefile::fault::TreeFault;
use treefile::tree::Tree;

// A title with what the check of a file answers.
fn answer_line(
    heap: Global,
    title: &str,
    answer: Result<Tree<'_>, TreeFault>,
) -> Result<String, AllocError>
    ensures { IfOk result (λ s. string_bytes s ≡ answer_line title.now (result_map_both (λ tree. tree.areas.trailer) (λ e. e) answer.entry)) }
{
    match answer {
        Ok(_) => format!(in heap; "{title} passes"),
        Err(fault) => {
            let line = FaultLine::from(fault);
            format!(in heap; "{title} {line}")
        }
    }
}

// The same for a file in hexadecimal, or `bad-line`.
fn replay(heap: Global, title: &str, text: &str) -> Result<String, AllocError>
    ensures { IfOk result (λ s. string_bytes s ≡ replayed title.now text.now) }
{
    match bytes_of(heap, text.as_bytes())? {
        Some(file) => answer_line(heap, title, check(file.as_slice())),
        None => String::from_str(heap, "bad-line"),
    }
}

// What is printed of a line of the input.
pub fn answer(heap: Global, line: &str) -> Result<String, AllocError>
    ensures { IfOk result (λ s. Answered line.now (string_bytes s)) }
{
    match line.split_once(' ') {
        Some((title, text)) => replay(heap, title, text),
        None => String::from_str(heap, "bad-line"),
    }
}
