// What a rehearsal came to.
ghost use Rattle.std.specs.Prelude.{◌≡◌, ◌++◌, IfOk, OnOk, decimal, string_bytes};
ghost use Rattle.share_loop.specs.Summaries.{core_line as line_of_core, number_line as line_of_number, read_line as line_of_read, reads_text, summary_text};

use json_tree::Text;
use std::alloc::{AllocError, Global};

/// What a read of a table gave.
#[derive(Clone, Copy, Debug, PartialEq, Eq)]
pub(crate) struct ReadCount {
    /// How many pages came.
    pub(crate) pages: u64,
    /// How many files they have together.
    pub(crate) files: u64,
    /// The sum of the files' sizes in bytes, or 2^64 - 1 where it passes that.
    pub(crate) bytes: u64,
}

/// What the reads of a rehearsal gave.
#[derive(Clone, Copy, Debug, PartialEq, Eq)]
pub(crate) struct Reads {
    /// The version that was read.
    pub(crate) version: u64,
    /// The read of the whole table.
    pub(crate) whole: ReadCount,
    /// The read with a predicate.
    pub(crate) part: ReadCount,
    /// The table's version at the end.
    pub(crate) head: u64,
}

/// What a rehearsal came to.
#[derive(Clone, Copy, Debug, PartialEq, Eq)]
pub(crate) struct Summary {
    /// What was read.
    pub(crate) reads: Reads,
    /// Whether the pure machine's replies to the same events were the server's.
    pub(crate) is_core_equal: bool,
}

impl Summary {
    /// That nothing was read.
    pub(crate) fn nothing() -> Summary {
        let none = ReadCount {
            pages: 0,
            files: 0,
            bytes: 0,
        };
        let reads = Reads {
            version: 0,
            whole: none,
            part: none,
            head: 0,
        };
        Summary {
            reads,
            is_core_equal: false,
        }
    }
}

fn push_number(alloc: Global, text: &mut String, words: &str, number: u64) -> Result<(), AllocError>
    ensures { OnOk result (string_bytes text.new ≡ string_bytes text.old ++ words.now ++ decimal number) }
{
    text.push_str(&format!(in alloc; "{words}{number}")?)
}

fn number_line(alloc: Global, words: &str, number: u64) -> Result<String, AllocError>
    ensures { IfOk result (λ text. string_bytes text ≡ line_of_number words.now number) }
{
    let mut text = String::new(alloc);
    push_number(alloc, &mut text, words, number)?;
    text.push_str("\n")?;
    Ok(text)
}

fn read_line(alloc: Global, read: ReadCount) -> Result<String, AllocError>
    ensures { IfOk result (λ text. string_bytes text ≡ line_of_read read) }
{
    let mut text = String::new(alloc);
    push_number(alloc, &mut text, "pages ", read.pages)?;
    push_number(alloc, &mut text, " files ", read.files)?;
    push_number(alloc, &mut text, " bytes ", read.bytes)?;
    text.push_str("\n")?;
    Ok(text)
}

fn core_line(is_equal: bool) -> &'static str
    ensures { result.now ≡ line_of_core is_equal }
{
    if is_equal {
        "core equal\n"
    } else {
        "core differs\n"
    }
}

fn reads_text(alloc: Global, reads: &Reads) -> Result<String, AllocError>
    ensures { IfOk result (λ text. string_bytes text ≡ reads_text reads.now) }
{
    let mut text = number_line(alloc, "version ", reads.version)?;
    text.push_str(&read_line(alloc, reads.whole)?)?;
    text.push_str(&read_line(alloc, reads.part)?)?;
    text.push_str(&number_line(alloc, "head ", reads.head)?)?;
    Ok(text)
}

/// The lines of the summary.
pub(crate) fn text_of(alloc: Global, summary: &Summary) -> Result<Text, AllocError>
    ensures { IfOk result (λ text. text ≡ summary_text summary.now) }
{
    let mut text = reads_text(alloc, &summary.reads)?;
    text.push_str(core_line(summary.is_core_equal))?;
    Ok(Text::of(text))
}
