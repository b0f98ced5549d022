ghost use Rattle.std.specs.Prelude.{◌≡◌, IfOk, string_bytes};
ghost use Rattle.doc_values.specs.Spans.{text_at, IsSpan, KeepsSpans};

use crate::span::Span;
use std::alloc::AllocError;

/// The most bytes that texts behind one another have together.
const MOST_BYTES: usize = 4294967295;

/// Puts a text behind others. Less than 4 GB of texts lie behind one another: more is want of memory.
pub fn append_text(texts: &mut String, text: &str) -> Result<Span, AllocError>
    ensures ok { IfOk result (λ span. IsSpan (string_bytes texts.new) span × (text_at (string_bytes texts.new) span ≡ text.now)) }
    ensures kept { KeepsSpans (string_bytes texts.old) (string_bytes texts.new) }
{
    let start = texts.as_str().len();
    if start > MOST_BYTES || text.len() > MOST_BYTES - start {
        return Err(AllocError);
    }
    texts.push_str(text)?;
    let end = texts.as_str().len();
    Ok(Span {
        start: start as u32,
        end: end as u32,
    })
}

/// The text of a span.
pub fn text_in(texts: &str, span: Span) -> &str
    requires { IsSpan texts.now span }
    ensures exact { result.now ≡ text_at texts.now span }
{
    &texts[span.start as usize..span.end as usize]
}
