//! The arguments in the order in which they are read: options may follow vectors and files, and have
//! their values after an equals sign.

ghost use Rattle.std.specs.Prelude.{◌≡◌, ◌++◌, IfOk, OnOk, drop};
ghost use Rattle.cvss_frame.specs.Arguments.{bytes_of};
ghost use Rattle.cvss_subcommands.specs.Ordering.{join_index, next_after, operand_words_of, operands_after, option_words_of, options_first, ordered, role_of, takes_value};
ghost use Rattle.cvss_subcommands.specs.declared.ordering.Next.TheVariants.{Any};
ghost use Rattle.cvss_subcommands.specs.declared.ordering.Role.TheVariants.{Joined};

use crate::flags::Flag;
use crate::requests::{Word, first_index, flag_of, named, word_of};
use crate::subcommand::Subcommand;
use std::alloc::{AllocError, Global};

/// What the next word after a subcommand may be.
#[derive(Clone, Copy, Drop)]
pub(crate) enum Next {
    /// Any word.
    Any,
    /// The value of the option before it.
    Value,
    /// An operand, as all words after `--`.
    Operands,
}

/// What a word after a subcommand is.
#[derive(Clone, Copy, Drop)]
pub(crate) enum Role {
    /// A metric, the value of an option, or an option without one.
    Alone,
    /// An option, whose value is the next word.
    NeedsValue,
    /// An option and its value, with the equals sign between them at this index.
    Joined(usize),
    /// `--`, after which all words are operands.
    End,
    /// A vector or a file.
    Operand,
}

impl Next {
    /// What may follow a word.
    fn after(self, role: Role) -> Next
        ensures { result ≡ next_after self role }
    {
        match role {
            Role::Alone | Role::Joined(_) => Next::Any,
            Role::NeedsValue => Next::Value,
            Role::End => Next::Operands,
            Role::Operand => self,
        }
    }
}

/// The arguments of a subcommand in order: options with their values and metrics, then `--` and the
/// operands. An option and its value become two words.
///
/// # Errors
///
/// Out of memory.
pub(crate) fn options_first(
    alloc: Global,
    arguments: Vec<Vec<u8>>,
) -> Result<Vec<Vec<u8>>, AllocError>
    ensures { IfOk result (λ words. bytes_of words.items ≡ options_first (bytes_of arguments.items)) }
{
    match arguments.first() {
        Some(word) => match named(word) {
            Some(subcommand) => in_order(alloc, subcommand, arguments),
            None => Ok(arguments),
        },
        None => Ok(arguments),
    }
}

/// A subcommand and the words after it in order.
fn in_order(
    alloc: Global,
    subcommand: Subcommand,
    arguments: Vec<Vec<u8>>,
) -> Result<Vec<Vec<u8>>, AllocError>
    ensures { IfOk result (λ words. bytes_of words.items ≡ ordered subcommand (bytes_of arguments.items)) }
{
    let mut options = Vec::new(alloc);
    let mut operands = Vec::new(alloc);
    // The first word, which is the subcommand, stays where it is.
    let mut next = Next::Value;
    for word in arguments {
        let role = role_of(subcommand, next, &word);
        move_word(alloc, role, word, &mut options, &mut operands)?;
        next = next.after(role);
    }
    move_operands(alloc, next, operands, &mut options)?;
    Ok(options)
}

/// Moves a word to the options or to the operands.
fn move_word(
    alloc: Global,
    role: Role,
    word: Vec<u8>,
    options: &mut Vec<Vec<u8>>,
    operands: &mut Vec<Vec<u8>>,
) -> Result<(), AllocError>
    ensures options { OnOk result (bytes_of options.new.items
        ≡ bytes_of options.old.items ++ option_words_of role word.items) }
    ensures operands { OnOk result (bytes_of operands.new.items
        ≡ bytes_of operands.old.items ++ operand_words_of role word.items) }
{
    match role {
        Role::Alone | Role::NeedsValue => options.push(word)?,
        Role::Joined(index) => move_joined(alloc, index, word, options)?,
        Role::End => {}
        Role::Operand => operands.push(word)?,
    }
    Ok(())
}

/// Moves an option, and its value after the equals sign at the index.
fn move_joined(
    alloc: Global,
    index: usize,
    word: Vec<u8>,
    options: &mut Vec<Vec<u8>>,
) -> Result<(), AllocError>
    ensures { OnOk result (bytes_of options.new.items
        ≡ bytes_of options.old.items ++ option_words_of (Joined index) word.items) }
{
    let value = Vec::from_slice(alloc, value_at(&word, index))?;
    let mut option = word;
    option.truncate(index);
    options.push(option)?;
    options.push(value)?;
    Ok(())
}

/// The bytes after the one at an index.
fn value_at(word: &[u8], index: usize) -> &[u8]
    ensures { result.now ≡ drop 1 (drop index word.now) }
{
    match word.get(index..) {
        Some([_, value @ ..]) => value,
        _ => &[],
    }
}

/// Moves the operands after the options and `--`, unless an option lacks its value.
fn move_operands(
    alloc: Global,
    next: Next,
    operands: Vec<Vec<u8>>,
    options: &mut Vec<Vec<u8>>,
) -> Result<(), AllocError>
    ensures { OnOk result (bytes_of options.new.items
        ≡ bytes_of options.old.items ++ operands_after next (bytes_of operands.items)) }
{
    if matches!(next, Next::Value) {
        return Ok(());
    }
    options.push(Vec::from_slice(alloc, b"--")?)?;
    for operand in operands {
        options.push(operand)?;
    }
    Ok(())
}

/// What a word after a subcommand is.
fn role_of(subcommand: Subcommand, next: Next, word: &[u8]) -> Role
    ensures { result ≡ role_of subcommand next word.now }
{
    match next {
        Next::Any => any_role(subcommand, word),
        Next::Value => Role::Alone,
        Next::Operands => Role::Operand,
    }
}

/// What a word is that may be an option.
fn any_role(subcommand: Subcommand, word: &[u8]) -> Role
    ensures { result ≡ role_of subcommand Any word.now }
{
    match word_of(subcommand, word) {
        Word::End => Role::End,
        Word::Flag(flag) if flag.has_value() => Role::NeedsValue,
        Word::Unknown => match join_index(subcommand, word) {
            Some(index) => Role::Joined(index),
            None => Role::Alone,
        },
        Word::Operand => Role::Operand,
        _ => Role::Alone,
    }
}

/// Whether there is an option, and it has a value.
fn takes_value(flag: Option<Flag>) -> bool
    ensures { result ≡ takes_value flag }
{
    match flag {
        Some(flag) => flag.has_value(),
        None => false,
    }
}

/// The index of the first equals sign, if the bytes before it are an option with a value.
fn join_index(subcommand: Subcommand, word: &[u8]) -> Option<usize>
    ensures { result ≡ join_index subcommand word.now }
{
    match first_index(word, b'=') {
        Some(index) if takes_value(flag_of(subcommand, &word[..index])) => Some(index),
        _ => None,
    }
}
