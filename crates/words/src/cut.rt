// Cuts a line into its words.
ghost use Rattle.std.specs.Prelude.{◌≡◌, IfOk};
ghost use Rattle.words.specs.Cutting.{is_blank, texts, words_of};

use std::alloc::{AllocError, Global};

fn is_blank(byte: u8) -> bool
    ensures answer { result ≡ is_blank byte }
{
    matches!(byte, b' ' | b'\t' | b'\r')
}

pub(crate) fn cut<'a>(heap: Global, line: &'a [u8]) -> Result<Vec<&'a [u8]>, AllocError>
    ensures answer { IfOk result (λ words. texts words.items ≡ words_of line.now) }
{
    line.split(|byte| is_blank(*byte))
        .filter(|word| !word.is_empty())
        .collect(heap)
}
