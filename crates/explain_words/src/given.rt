//! The words, each by what it is for, as the program's own library of command lines takes them.

/// A word, and its place among the words.
#[derive(Clone, Copy)]
pub struct Placed<'a> {
    pub place: usize,
    pub text: &'a str,
}

/// A number that `--seed` was given: the place of that word, and the number where one is there.
#[derive(Clone, Copy)]
pub struct Seed<'a> {
    pub place: usize,
    pub value: Option<&'a str>,
    /// Whether both are one word.
    pub is_joined: bool,
}

/// What was found among the words.
#[derive(Clone, Copy)]
pub struct Given<'a> {
    /// The words that stand for themselves: the mode, a file, and one too many; and how many there are.
    pub first: Option<Placed<'a>>,
    pub second: Option<Placed<'a>>,
    pub third: Option<Placed<'a>>,
    /// The first `--seed` and the second, and the first `--steps` and the second.
    pub seed: Option<Seed<'a>>,
    pub second_seed: Option<Seed<'a>>,
    pub steps: Option<Placed<'a>>,
    pub second_steps: Option<Placed<'a>>,
    /// The first word that begins with `-` and is no option.
    pub unknown: Option<Placed<'a>>,
}

/// Whether a text is digits, and there is one.
pub fn are_digits(text: &str) -> bool {
    !text.is_empty() && text.bytes().all(|byte| byte.is_ascii_digit())
}

// Whether a word can be the number of a `--seed` before it.
fn can_be_number(word: &str) -> bool {
    match word.strip_prefix("-") {
        Some(behind) => are_digits(behind),
        None => true,
    }
}

// Whether a word is an option, by its first byte.
fn is_option(word: &str) -> bool {
    word.starts_with("-") && word != "-"
}

impl<'a> Given<'a> {
    fn new() -> Self {
        Given {
            first: None,
            second: None,
            third: None,
            seed: None,
            second_seed: None,
            steps: None,
            second_steps: None,
            unknown: None,
        }
    }

    /// What these words are for.
    pub fn of(words: &'a [String]) -> Self {
        let mut given = Given::new();
        let mut are_options = true;
        let mut is_taken = false;
        for (place, word) in words.iter().enumerate() {
            let text = word.as_str();
            if is_taken {
                is_taken = false;
            } else if !are_options || !is_option(text) {
                given.plain(Placed { place, text });
            } else if text == "--" {
                are_options = false;
            } else {
                let next = match words.get(place.saturating_add(1)) {
                    Some(next) => Some(next.as_str()),
                    None => None,
                };
                is_taken = given.option(Placed { place, text }, next);
            }
        }
        given
    }

    fn plain(&mut self, word: Placed<'a>) {
        if self.first.is_none() {
            self.first = Some(word);
        } else if self.second.is_none() {
            self.second = Some(word);
        } else if self.third.is_none() {
            self.third = Some(word);
        }
    }

    fn seeded(&mut self, seed: Seed<'a>) {
        if self.seed.is_none() {
            self.seed = Some(seed);
        } else if self.second_seed.is_none() {
            self.second_seed = Some(seed);
        }
    }

    fn stepped(&mut self, word: Placed<'a>) {
        if self.steps.is_none() {
            self.steps = Some(word);
        } else if self.second_steps.is_none() {
            self.second_steps = Some(word);
        }
    }

    // Takes an option, and says whether the word behind it is its number.
    fn option(&mut self, word: Placed<'a>, next: Option<&'a str>) -> bool {
        let place = word.place;
        if word.text == "--steps" {
            self.stepped(word);
            return false;
        }
        if let Some(number) = word.text.strip_prefix("--seed=") {
            let value = Some(number);
            let is_joined = true;
            self.seeded(Seed {
                place,
                value,
                is_joined,
            });
            return false;
        }
        if word.text != "--seed" {
            if self.unknown.is_none() {
                self.unknown = Some(word);
            }
            return false;
        }
        let value = match next {
            Some(number) if can_be_number(number) => Some(number),
            _ => None,
        };
        let is_joined = false;
        self.seeded(Seed {
            place,
            value,
            is_joined,
        });
        value.is_some()
    }
}
