// The account of a settings file's head.
ghost use Rattle.std.specs.Prelude.{◌≡◌, IfOk, string_bytes};
ghost use Rattle.settings.specs.Head.{head_of};
ghost use Rattle.inspect.specs.Account.{account_text};

use crate::fields::FieldLines;
use crate::inputs::InputLines;
use settings::head::reads::read_head;
use std::alloc::{AllocError, Global};

// The account of a file, or its refusal on a line.
pub fn account(heap: Global, file: &[u8]) -> Result<String, AllocError>
    ensures { IfOk result (λ s. string_bytes s ≡ account_text (head_of file.now)) }
{
    match read_head(file) {
        Ok(head) => {
            let fields = FieldLines(head.header.fields());
            let rows = head.inputs();
            let inputs = InputLines {
                format: head.header.format(),
                rows: rows.as_slice(),
            };
            format!(in heap; "{fields}{inputs}")
        }
        Err(refusal) => format!(in heap; "{refusal}\n"),
    }
}
