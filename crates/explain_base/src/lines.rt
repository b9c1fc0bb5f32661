//! The lines of a text, with their numbers.
ghost use Rattle.std.specs.Prelude.{length, ◌≡◌, IfSome};
ghost use Rattle.std.specs.Iterator.{at_most};

/// A line without its line feed, its number from 1 on, and whether a line feed ends it.
#[derive(Clone, Copy)]
pub struct Line<'a> {
    pub number: usize,
    pub text: &'a [u8],
    pub is_ended: bool,
}

/// The lines of a text that are left. Behind a last line feed there is none.
#[derive(Clone, Copy)]
pub struct Lines<'a> {
    rest: &'a [u8],
    passed: usize,
}

impl<'a> Lines<'a> {
    /// All lines of a text.
    pub fn of(text: &'a [u8]) -> Self {
        Lines {
            rest: text,
            passed: 0,
        }
    }

    /// The lines behind the one of this number.
    pub fn behind(self, number: usize) -> Self {
        let mut lines = self;
        for line in self {
            if line.number > number {
                break;
            }
            let _ = lines.next();
        }
        lines
    }

    /// The line of this number, where there is one.
    pub fn numbered(self, number: usize) -> Option<Line<'a>>
        ensures { IfSome result (λ line. line.number ≡ number) }
    {
        for line in self {
            if line.number == number {
                return Some(line);
            }
        }
        None
    }

    /// The bytes that are left.
    pub fn rest(self) -> &'a [u8] {
        self.rest
    }
}

impl<'a> Iterator for Lines<'a> {
    type Item = Line<'a>;

    ghost remaining = { λ s. at_most (length s.rest.now) };

    fn next(&mut self) -> Option<Line<'a>> {
        let whole = self.rest;
        if whole.is_empty() {
            return None;
        }
        self.passed = self.passed.saturating_add(1);
        let number = self.passed;
        match whole.iter().position(|byte| *byte == b'\n') {
            Some(size) => {
                let (text, behind) = whole.split_at(size);
                self.rest = match behind {
                    [] => &[],
                    [_, rest @ ..] => rest,
                };
                Some(Line {
                    number,
                    text,
                    is_ended: true,
                })
            }
            None => {
                self.rest = &[];
                Some(Line {
                    number,
                    text: whole,
                    is_ended: false,
                })
            }
        }
    }
}
