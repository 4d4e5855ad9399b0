// The lines that turnover prints, written into a lent buffer; each call answers the place behind its line. The buffer and the place stay two
// arguments: in one type with a `&mut` each caller would take it apart again, to write out or go on with the buffer.
ghost use Rattle.std.specs.Prelude.{◌≡◌, ◌+◌, ◌<◌, ◌≤◌, length};
ghost use Rattle.decimal.specs.Decimal.{spaced};
ghost use Rattle.turnover_output.specs.TextAt.{TextAt};
ghost use Rattle.turnover_output.specs.Answer.{opening as Opening, entered as entered_text, mode_word as word_of, entry_text, receipt_text, mode_text, refused_text, setup_text, bad_text, longest_numbers, longest_counts, longest_mode, longest};

use crate::text;

// No line is longer.
pub const LONGEST: usize = 94;

// A step's number, a word, the phase and the station.
fn opening(out: &mut [u8], at: usize, number: u64, word: &[u8], phase: u32, station: u8) -> usize
    requires { at + length word.now + longest_numbers ≤ length out.old }
    ensures text_at { TextAt out.old at (Opening number word.now phase station) result out.new }
    ensures upper_bound { result ≤ at + length word.now + longest_numbers }
{
    let a = text::number(out, at, number);
    let b = text::word(out, a, word);
    let c = text::number(out, b, u64::from(phase));
    let d = text::word(out, c, b" ");
    text::number(out, d, u64::from(station))
}

// Counts, a space before each.
fn counted(out: &mut [u8], at: usize, counts: &[u16]) -> usize
    requires { (length counts.now ≤ 8) × (at + longest_counts ≤ length out.old) }
    ensures text_at { TextAt out.old at (spaced counts.now) result out.new }
    ensures upper_bound { result ≤ at + longest_counts }
{
    let mut end = at;
    for x in counts {
        let b = text::word(out, end, b" ");
        end = text::number(out, b, u64::from(*x));
    }
    end
}

// An accepted entry up to its counts, those of the first n stations.
fn entered(
    out: &mut [u8],
    at: usize,
    number: u64,
    phase: u32,
    station: u8,
    counts: [u16; 8],
    n: u8,
) -> usize
    requires { at + longest ≤ length out.old }
    ensures text_at { TextAt out.old at (entered_text number phase station counts n) result out.new }
    ensures upper_bound { result ≤ at + longest_numbers + 7 + longest_counts }
{
    let a = opening(out, at, number, b" entry ", phase, station);
    counted(out, a, &counts[..usize::from(n).min(8)])
}

// An accepted entry that is no receipt.
pub fn entry(
    out: &mut [u8],
    at: usize,
    number: u64,
    phase: u32,
    station: u8,
    counts: [u16; 8],
    n: u8,
) -> usize
    requires { at + longest ≤ length out.old }
    ensures text_at { TextAt out.old at (entry_text number phase station counts n) result out.new }
    ensures upper_bound { result ≤ at + longest }
{
    let a = entered(out, at, number, phase, station, counts, n);
    text::word(out, a, b"\n")
}

// A receipt, with its news.
pub fn receipt(
    out: &mut [u8],
    at: usize,
    number: u64,
    phase: u32,
    station: u8,
    counts: [u16; 8],
    n: u8,
    news: u8,
) -> usize
    requires { at + longest ≤ length out.old }
    ensures text_at { TextAt out.old at (receipt_text number phase station counts n news) result out.new }
    ensures upper_bound { result ≤ at + longest }
{
    let a = entered(out, at, number, phase, station, counts, n);
    let b = text::word(out, a, b" ");
    let c = text::number(out, b, u64::from(news));
    text::word(out, c, b"\n")
}

#[tactic(auto, unfolding(crate::specs::Answer::mode_word))]
fn mode_word(mode: u8) -> &'static [u8]
    ensures is { result.now ≡ word_of mode }
    ensures upper_bound { length result.now ≤ longest_mode }
{
    match mode {
        0 => b"normal",
        1 => b"mute",
        _ => b"stand-by",
    }
}

// An accepted step that is no entry.
pub fn mode(out: &mut [u8], at: usize, number: u64, phase: u32, station: u8, mode: u8) -> usize
    requires { at + longest ≤ length out.old }
    ensures text_at { TextAt out.old at (mode_text number phase station mode) result out.new }
    ensures upper_bound { result ≤ at + longest }
{
    let a = opening(out, at, number, b" mode ", phase, station);
    let b = text::word(out, a, b" ");
    let c = text::word(out, b, mode_word(mode));
    text::word(out, c, b"\n")
}

// A refused step.
pub fn refused(out: &mut [u8], at: usize, number: u64, refusal: u8) -> usize
    requires { at + longest ≤ length out.old }
    ensures text_at { TextAt out.old at (refused_text number refusal) result out.new }
    ensures upper_bound { result ≤ at + longest }
{
    let a = text::number(out, at, number);
    let b = text::word(out, a, b" no ");
    let c = text::number(out, b, u64::from(refusal));
    text::word(out, c, b"\n")
}

// A refused setup.
pub fn setup_refused(out: &mut [u8], at: usize, refusal: u8) -> usize
    requires { at + longest ≤ length out.old }
    ensures text_at { TextAt out.old at (setup_text refusal) result out.new }
    ensures upper_bound { result ≤ at + longest }
{
    let a = text::word(out, at, b"no ");
    let b = text::number(out, a, u64::from(refusal));
    text::word(out, b, b"\n")
}

// Any other line.
pub fn bad(out: &mut [u8], at: usize) -> usize
    requires { at + longest ≤ length out.old }
    ensures text_at { TextAt out.old at bad_text result out.new }
    ensures upper_bound { result ≤ at + longest }
{
    text::word(out, at, b"bad\n")
}
