// Bytes as words, low byte first.
ghost use Rattle.std.specs.Prelude.{◌≡◌, ◌+◌, ◌*◌, ◌<◌, ◌≤◌, length};
ghost use Rattle.table.specs.Answers.{written};
ghost use Rattle.report_findings.specs.Words.{read_limit, word_at, words_of};

fn word(low: u8, high: u8) -> u16
    ensures { result ≡ low + 256 * high }
{
    u16::from_le_bytes([low, high])
}

// The word of number i; a last half word gets high byte 0.
fn word_at(bytes: &[u8], i: usize) -> u16
    requires { (2 * i < length bytes.now) × (length bytes.now ≤ 2 * read_limit) }
    ensures { result ≡ word_at bytes.now i }
{
    let at = 2 * i;
    if at + 1 < bytes.len() {
        word(bytes[at], bytes[at + 1])
    } else {
        word(bytes[at], 0)
    }
}

// Writes the words of at most 18,438 bytes; returns how many they are.
pub fn decode(bytes: &[u8], words: &mut [u16]) -> usize
    requires { (length bytes.now ≤ 2 * read_limit) × (read_limit ≤ length words.old) }
    ensures { (result ≡ length (words_of bytes.now)) × (words.new ≡ written (words_of bytes.now) words.old) }
{
    let count = bytes.len().div_ceil(2);
    for i in 0..count {
        words[i] = word_at(bytes, i);
    }
    count
}
