// The parts of a line, cut off one after another. A line may have as many as it has bytes: a list of them would take many times the
// memory of the line.
ghost use Rattle.std.specs.Prelude.{◌≡◌, ◌<◌, ◌==◌, ◌∷◌, length, position, IfSome};
ghost use Rattle.script.specs.Parts.{split, parts_behind};

// The first part of a text, and what stands behind the space after it, if there is one.
#[derive(Clone, Copy)]
pub(crate) struct Cut<'a> {
    pub(crate) part: &'a [u8],
    pub(crate) behind: Option<&'a [u8]>,
}

fn first_space(text: &[u8]) -> Option<usize>
    ensures { result ≡ position (λ c. c == 32) text.now }
{
    text.iter().position(|c| *c == b' ')
}

pub(crate) fn first_part(text: &[u8]) -> Cut<'_>
    ensures parts { split 32 text.now ≡ result.part.now ∷ parts_behind result.behind }
    ensures shorter { IfSome result.behind (λ rest. length rest.now < length text.now) }
{
    match first_space(text) {
        Some(at) => Cut {
            part: &text[..at],
            behind: Some(&text[at + 1..]),
        },
        None => Cut {
            part: text,
            behind: None,
        },
    }
}
