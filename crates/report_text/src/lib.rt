// The texts that the report program prints.
#![tactic(auto)]

ghost use Rattle.std.specs.Prelude.{◌≡◌, ◌+◌, ◌≤◌, ◌++◌, length};
ghost use Rattle.arrayvec.specs.ArrayString.{array_string_len};
ghost use Rattle.report_text.specs.Text.{decimal_of, line_text, report_full, sum_text, sums_text};

use arrayvec::ArrayString;
use itoa::Buffer;

// A text of at most 128 bytes: the longest, of four sizes of 20 digits each, has 119.
pub type Text = ArrayString<128>;

// Appends a number in decimal digits.
#[tactic(auto, using(crate::proofs::Writings::decimal_same))]
fn put_number(text: &mut Text, n: u64)
    requires { array_string_len text.old + 20 ≤ 128 }
    ensures bytes { text.new.bytes ≡ text.old.bytes ++ decimal_of n }
    ensures short { array_string_len text.new ≤ array_string_len text.old + 20 }
{
    text.push_str(Buffer::new().format(n));
}

// Appends a word, a number and a newline.
fn put_sum(text: &mut Text, word: &str, n: u64)
    requires { array_string_len text.old + (length word.now + 21) ≤ 128 }
    ensures bytes { text.new.bytes ≡ text.old.bytes ++ sum_text word.now n }
    ensures short { array_string_len text.new ≤ array_string_len text.old + (length word.now + 21) }
{
    text.push_str(word);
    put_number(text, n);
    text.push('\n');
}

// The four lines of the report.
pub fn sums(passed: u64, returned: u64, both: u64, only: u64) -> Text
    ensures { result.bytes ≡ sums_text passed returned both only }
{
    let mut text = Text::new();
    put_sum(&mut text, "passed ", passed);
    put_sum(&mut text, "returned ", returned);
    put_sum(&mut text, "both ", both);
    put_sum(&mut text, "only-returned ", only);
    text
}

// The number of a line and a word behind it.
pub fn line(n: u64, word: &str) -> Text
    requires { length word.now ≤ 20 }
    ensures { result.bytes ≡ line_text n word.now }
{
    let mut text = Text::new();
    text.push_str("line ");
    put_number(&mut text, n);
    text.push_str(word);
    text
}

// The store was full in the closing sums.
pub fn full() -> Text
    ensures { result.bytes ≡ report_full }
{
    let mut text = Text::new();
    text.push_str("report full\n");
    text
}
