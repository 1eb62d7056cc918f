//! What the words ask for.

ghost use Rattle.std.specs.Prelude.{◌≡◌, ◌<◌, ◌≤◌, ◌^◌, ℕ, List, map, MatchOption, option_map, string_bytes};
ghost use Rattle.warg_program.specs.Command.{Asked, Link, Compose, Assemble, Demo, Sources as Named, IsCommand, IsNumber, asked, out_of};

/// The paths of the files that `assemble` reads.
#[derive(Clone, Copy, Debug)]
pub struct Sources<'a> {
    /// Of the text of the plan.
    pub plan: &'a str,
    /// Of the recorded replies.
    pub replies: &'a str,
    /// Of the signatures that were checked.
    pub checked: &'a str,
}

/// A command with what its words name.
#[derive(Clone, Copy, Debug)]
pub enum Command<'a> {
    /// `link ROOT OUT`: links the component in the file `root` into the file `out`.
    Link {
        root: &'a str,
        out: &'a str,
    },
    /// `compose ROOT CONFIG OUT`: composes the component in the file `root` by the configuration in the file `config` into the
    /// file `out`.
    Compose {
        root: &'a str,
        config: &'a str,
        out: &'a str,
    },
    /// `assemble PLAN REPLIES CHECKED OUT`: assembles the component of a plan into the file `out`.
    Assemble {
        sources: Sources<'a>,
        out: &'a str,
    },
    /// `demo SEED COUNT`: assembles the component of the plan of a world of `count` packages, which is drawn from `seed`.
    Demo {
        seed: u64,
        count: u32,
    },
}

/// The most packages that a world has.
const MOST_PACKAGES: u64 = 200;

impl<'a> Command<'a> {
    /// The path of the file that the command writes, where it writes one.
    pub(crate) fn out(&self) -> Option<&'a str>
        ensures { option_map (λ path. path.now) result ≡ out_of (asked self.now) }
    {
        match self {
            Command::Link { out, .. } => Some(*out),
            Command::Compose { out, .. } => Some(*out),
            Command::Assemble { out, .. } => Some(*out),
            Command::Demo { .. } => None,
        }
    }
}

/// The number below 2^64 that a text of decimal digits alone is.
fn number_of(text: &str) -> Option<u64>
    ensures { MatchOption result ((number : ℕ) → IsNumber text.now number → number < 2 ^ 64 → ⊥)
        (λ number. IsNumber text.now number) }
{
    let bytes = text.as_bytes();
    if !bytes.is_empty() && bytes[0] == b'+' {
        return None;
    }
    match text.parse::<u64>() {
        Ok(number) => Some(number),
        Err(_) => None,
    }
}

/// How many packages a text asks for.
fn count_of(text: &str) -> Option<u32>
    ensures { MatchOption result ((count : ℕ) → IsNumber text.now count → 1 ≤ count → count ≤ 200 → ⊥)
        (λ count. IsNumber text.now count × (1 ≤ count) × (count ≤ 200)) }
{
    let count = number_of(text)?;
    if 1 <= count && count <= MOST_PACKAGES {
        Some(count as u32)
    } else {
        None
    }
}

/// The command `demo` of these numbers.
fn demo_of<'a>(seed: &str, count: &str) -> Option<Command<'a>>
    ensures { MatchOption result ((s n : ℕ) → IsNumber seed.now s → s < 2 ^ 64 → IsNumber count.now n → 1 ≤ n
        → n ≤ 200 → ⊥) (λ c. (s : ℕ) × (n : ℕ) × (asked c ≡ Demo s n) × IsNumber seed.now s × (s < 2 ^ 64)
        × IsNumber count.now n × (1 ≤ n) × (n ≤ 200)) }
{
    let seed = number_of(seed)?;
    let count = count_of(count)?;
    Some(Command::Demo { seed, count })
}

/// The command `demo` that the words are.
fn demo_in<'a>(words: &[String]) -> Option<Command<'a>>
    ensures { MatchOption result
        ((seed count : ℕ) → IsCommand (map string_bytes words.now) (Demo seed count) → ⊥)
        (λ c. IsCommand (map string_bytes words.now) (asked c)) }
{
    match words {
        [command, seed, count] if command.as_str() == "demo" => {
            match demo_of(seed.as_str(), count.as_str()) {
                Some(command) => Some(command),
                None => None,
            }
        }
        _ => None,
    }
}

/// The command with a file for its result that the words are.
fn file_command_of(words: &[String]) -> Option<Command<'_>>
    ensures found { MatchOption result
        ((root out : List ℕ) → IsCommand (map string_bytes words.now) (Link root out) → ⊥)
        (λ c. IsCommand (map string_bytes words.now) (asked c)) }
    ensures no_compose { MatchOption result
        ((root config out : List ℕ) → IsCommand (map string_bytes words.now) (Compose root config out) → ⊥)
        (λ c. Unit {0}) }
    ensures no_assemble { MatchOption result
        ((sources : Named) → (out : List ℕ) → IsCommand (map string_bytes words.now) (Assemble sources out) → ⊥)
        (λ c. Unit {0}) }
{
    match words {
        [command, root, out] if command.as_str() == "link" => Some(Command::Link {
            root: root.as_str(),
            out: out.as_str(),
        }),
        [command, root, config, out] if command.as_str() == "compose" => Some(Command::Compose {
            root: root.as_str(),
            config: config.as_str(),
            out: out.as_str(),
        }),
        [command, plan, replies, checked, out] if command.as_str() == "assemble" => {
            Some(Command::Assemble {
                sources: Sources {
                    plan: plan.as_str(),
                    replies: replies.as_str(),
                    checked: checked.as_str(),
                },
                out: out.as_str(),
            })
        }
        _ => None,
    }
}

/// The command that the words are, without the program's own name.
pub fn command_of(words: &[String]) -> Option<Command<'_>>
    ensures { MatchOption result ((a : Asked) → IsCommand (map string_bytes words.now) a → ⊥)
        (λ c. IsCommand (map string_bytes words.now) (asked c)) }
{
    match file_command_of(words) {
        Some(command) => Some(command),
        None => demo_in(words),
    }
}
