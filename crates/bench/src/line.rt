// A line that a program prints.
ghost use Rattle.std.specs.Prelude.{◌≡◌, [], ◌∷◌, ◌++◌, IfOk, Some, string_bytes};
ghost use Rattle.bench.specs.Lines.{line_bytes};

use answer::Refusal;
use device::{Code, Kind};
use std::alloc::{AllocError, Global};
use std::fmt;
use table::Rule;

#[derive(Clone, Copy, Debug, PartialEq, Eq)]
pub enum Line {
    // A code of a part, and the level that it stands for. A part that is absent has no kind.
    Level {
        kind: Option<Kind>,
        part: u8,
        code: Code,
        level: u32,
    },
    // A rule with its figures.
    Rule(Rule),
    // The number of a board's states.
    States(usize),
    // How many of them are lawful.
    Lawful(usize),
    // A refusal, by its number.
    Refused(Refusal),
}

// A rule's words stand here and not with the rule: what the programs print is in one place.
impl fmt::Display for Line {
    ghost output = { λ l. Some (line_bytes l) };

    fn fmt<W: fmt::Write>(&self, f: &mut fmt::Formatter<W>) -> fmt::Result {
        match self {
            Line::Level {
                kind,
                part,
                code,
                level,
            } => {
                match kind {
                    Some(kind) => write!(f, "{kind}")?,
                    None => f.write_str("absent")?,
                }
                write!(f, " {part} code {code} at {level}")
            }
            Line::Rule(rule) => match rule {
                Rule::Window {
                    rail,
                    floor,
                    ceiling,
                } => write!(f, "window rail {rail} from {floor} to {ceiling}"),
                Rule::Spread { rail, other, most } => write!(
                    f,
                    "spread rail {rail} rail {other} at most {most}"
                ),
                Rule::Step { rail, most } => write!(f, "step rail {rail} at most {most}"),
                Rule::Need {
                    clock,
                    above,
                    rail,
                    least,
                } => {
                    write!(
                        f,
                        "need clock {clock} above {above} rail {rail} at least {least}"
                    )
                }
                Rule::Cap { clock, most } => write!(f, "cap clock {clock} at most {most}"),
            },
            Line::States(states) => write!(f, "states {states}"),
            Line::Lawful(lawful) => write!(f, "lawful {lawful}"),
            Line::Refused(refusal) => {
                let number = refusal.number();
                write!(f, "refused {number}")
            }
        }
    }
}

impl Line {
    // The line's bytes, and a newline.
    pub fn text(&self, heap: Global) -> Result<String, AllocError>
        ensures { IfOk result (λ s. string_bytes s ≡ line_bytes self.now ++ 10 ∷ []) }
    {
        format!(in heap; "{self}\n")
    }
}
