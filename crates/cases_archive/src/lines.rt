// A line of a world, byte by byte: "Nx " in front or not, a word, then numbers. A line that begins with '#' is a comment, or the name of a
// script, which is shown as it stands.
use std::io;

// How many fields a line has: the word is the first, numbers are the others.
const FIELDS: usize = 7;

// What a comment begins with that is a script's name.
const NAME: [u8; 8] = *b"# name: ";

// What of a line has been read: how often it is to happen (0, as it stands before any digit, says nothing), the word's first letter, the numbers
// of its fields, the field that is being read, whether a minus stood in the line, and of a comment that may be a name how many bytes are a name's.
#[derive(Clone, Copy)]
pub struct WorldLine {
    times: u32,
    pub letter: Option<u8>,
    numbers: [u32; FIELDS],
    field: usize,
    minus: bool,
    named: Option<usize>,
}

// A number with one digit more; the last nine are kept.
fn longer(number: u32, digit: u8) -> u32 {
    number % 100000000 * 10 + u32::from(digit)
}

impl WorldLine {
    pub fn begin() -> WorldLine {
        WorldLine {
            times: 0,
            letter: None,
            numbers: [0; FIELDS],
            field: 0,
            minus: false,
            named: Some(0),
        }
    }

    // A byte of a comment. The bytes of a name are shown once it is known to be one.
    fn comment(&mut self, rt: &impl Print, byte: u8) -> io::Result<()> {
        self.letter = Some(b'#');
        let Some(read) = self.named else {
            return Ok(());
        };
        match NAME.get(read) {
            None => rt.write_all(&[byte])?,
            Some(wanted) if *wanted != byte => self.named = None,
            Some(_) => {
                self.named = Some(read + 1);
                if read + 1 == NAME.len() {
                    rt.write_all(&NAME)?;
                }
            }
        }
        Ok(())
    }

    // A digit: of the number in front, or of the field that is being read.
    fn digit(&mut self, digit: u8) {
        if self.letter.is_none() {
            self.times = longer(self.times, digit);
        } else if let Some(number) = self.numbers.get_mut(self.field) {
            *number = longer(*number, digit);
        }
    }

    // A space after the word begins a field.
    fn space(&mut self) {
        if self.letter.is_some() && self.field < FIELDS {
            self.field += 1;
        }
    }

    // Any other byte is the word's first letter, or says nothing. The x behind a number in front is no letter, nor is a byte 0.
    fn word(&mut self, byte: u8) {
        if self.letter.is_none() && byte != b'x' && byte != 0 {
            self.letter = Some(byte);
        }
        if byte == b'-' {
            self.minus = true;
        }
    }

    // The next byte.
    pub fn take(&mut self, rt: &impl Print, byte: u8) -> io::Result<()> {
        let is_comment = match self.letter {
            Some(letter) => letter == b'#',
            None => self.times == 0 && byte == b'#',
        };
        if is_comment {
            return self.comment(rt, byte);
        }
        match byte {
            b'\n' => {}
            b'0'..=b'9' => self.digit(byte - b'0'),
            b' ' => self.space(),
            _ => self.word(byte),
        }
        Ok(())
    }

    // How often the line happens.
    pub fn rounds(&self) -> u32 {
        self.times.max(1)
    }

    // The number of a field, 0 where there is none.
    pub fn number(&self, field: usize) -> u32 {
        self.numbers.get(field).copied().unwrap_or(0)
    }

    pub fn byte(&self, field: usize) -> u8 {
        (self.number(field) % 256) as u8
    }

    pub fn word_at(&self, field: usize) -> u16 {
        (self.number(field) % 65536) as u16
    }

    // The 16 bits of a field that is a code. No number but a code has a minus.
    pub fn bits(&self, field: usize) -> u16 {
        let bits = self.word_at(field);
        if self.minus {
            bits.wrapping_neg()
        } else {
            bits
        }
    }
}
