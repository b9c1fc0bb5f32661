//! The modes, and the words that the usage line names.

/// The names of the modes.
pub static MODES: [&str; 8] = [
    "run", "sim", "check", "gen", "mq", "boxes", "freeze", "thaw",
];

/// All options.
pub static OPTIONS: [&str; 6] = ["--seed", "--steps", "--help", "-h", "--version", "--prove"];

/// What the program is asked for: its name, as it is written behind the program's name with a blank at its end, that
/// there is one mode, whether it reads a file or standard input, which options go with it, and what is told of another.
#[derive(Clone, Copy)]
pub struct Mode {
    name: &'static str,
    pub asked: &'static str,
    pub alone: &'static str,
    pub reads: bool,
    pub has_seed: bool,
    pub has_steps: bool,
    pub unlike: &'static str,
    pub form: &'static str,
}

static ALL: [Mode; 8] = [
    Mode {
        name: "run",
        asked: "./pico run ",
        alone: "one mode: run",
        reads: true,
        has_seed: false,
        has_steps: true,
        unlike: "`run` has no number: its threads choose",
        form: "./pico run [--steps] [FILE]",
    },
    Mode {
        name: "sim",
        asked: "./pico sim ",
        alone: "one mode: sim",
        reads: true,
        has_seed: true,
        has_steps: true,
        unlike: "",
        form: "",
    },
    Mode {
        name: "check",
        asked: "./pico check ",
        alone: "one mode: check",
        reads: true,
        has_seed: false,
        has_steps: false,
        unlike: "`check` has no options",
        form: "./pico check [FILE]",
    },
    Mode {
        name: "gen",
        asked: "./pico gen ",
        alone: "one mode: gen",
        reads: false,
        has_seed: true,
        has_steps: true,
        unlike: "",
        form: "",
    },
    Mode {
        name: "mq",
        asked: "./pico mq ",
        alone: "one mode: mq",
        reads: true,
        has_seed: false,
        has_steps: true,
        unlike: "`mq` has no number: its threads choose",
        form: "./pico mq [--steps] [FILE]",
    },
    Mode {
        name: "boxes",
        asked: "./pico boxes ",
        alone: "one mode: boxes",
        reads: true,
        has_seed: false,
        has_steps: false,
        unlike: "`boxes` has no options",
        form: "./pico boxes [FILE]",
    },
    Mode {
        name: "freeze",
        asked: "./pico freeze ",
        alone: "one mode: freeze",
        reads: true,
        has_seed: true,
        has_steps: false,
        unlike: "`freeze` has no `--steps`: an image has its events",
        form: "./pico freeze [--seed N] [FILE]",
    },
    Mode {
        name: "thaw",
        asked: "./pico thaw ",
        alone: "one mode: thaw",
        reads: true,
        has_seed: false,
        has_steps: false,
        unlike: "`thaw` has no options",
        form: "./pico thaw [FILE]",
    },
];

impl Mode {
    /// The mode of this name.
    pub fn of(name: &str) -> Option<&'static Mode> {
        for mode in &ALL {
            if mode.name == name {
                return Some(mode);
            }
        }
        None
    }
}

/// The word of an option that stands alone, as it would.
pub fn own(word: &str) -> Option<&'static str> {
    match word {
        "--help" => Some("./pico --help"),
        "-h" => Some("./pico -h"),
        "--version" => Some("./pico --version"),
        "--prove" => Some("./pico --prove"),
        _ => None,
    }
}
