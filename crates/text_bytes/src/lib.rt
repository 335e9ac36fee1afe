// Words put into a buffer of text.
#![tactic(auto)]

ghost use Rattle.text_bytes.specs.Buffers.{Room, Puts};

// Puts a word into the text at `from` and answers where it ends.
pub fn put(word: &[u8], text: &mut [u8], from: usize) -> usize
    requires { Room text.old from word.now }
    ensures { Puts text.old from word.now text.new result }
{
    let to = from + word.len();
    text[from..to].copy_from_slice(word);
    to
}
