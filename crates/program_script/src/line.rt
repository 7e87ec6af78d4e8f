//! The words of one line.
ghost use Rattle.std.specs.Prelude.{◌≡◌, ◌≢◌, ◌≤◌, ◌^◌, ℕ, IfSome, IfNone};
ghost use Rattle.geometry.specs.declared.kind.Kind.{Kind as KindValue};
ghost use Rattle.geometry.specs.declared.shape.Shape.{Shape as ShapeValue};
ghost use Rattle.program_script.specs.declared.command.Cleaning.{Cleaning as CleaningValue};
ghost use Rattle.program_script.specs.Grammar.{cleaning_word, kind_word, shape_word};
ghost use Rattle.program_script.specs.Numeral.{IsNumeral, decimal};

use crate::number::{byte, number, small};
use crate::script::Numbers;
use crate::{Cleaning, Command, Failure, WorkerDeed};
use geometry::{Kind, Shape};

/// What a line says, wherever it stands.
#[derive(Clone, Copy)]
pub enum Statement {
    Format(Numbers),
    Command(Command),
    Par,
    Worker,
    End,
}

/// What the words of a line say. None where they are not of the grammar.
pub fn statement_of(words: &[&[u8]]) -> Option<Statement> {
    match words {
        [b"format", shape, segments, per_section, files, nodes] => Some(Statement::Format(
            Numbers {
                shape: shape_of(shape)?,
                segments: small(segments)?,
                per_section: small(per_section)?,
                files: small(files)?,
                nodes: small(nodes)?,
            },
        )),
        [b"par"] => Some(Statement::Par),
        [b"worker"] => Some(Statement::Worker),
        [b"end"] => Some(Statement::End),
        _ => match work(words) {
            Some(work) => Some(Statement::Command(Command::Work(work))),
            None => Some(Statement::Command(command(words)?)),
        },
    }
}

fn command(words: &[&[u8]]) -> Option<Command> {
    match words {
        [b"now", time] => Some(Command::Now(number(time, u64::MAX)?)),
        [b"create", kind] => Some(Command::Create(kind_of(kind)?)),
        [b"delete", file] => Some(Command::Delete { file: small(file)? }),
        [b"status"] => Some(Command::Status),
        [b"snap", file] => Some(Command::Snap { file: small(file)? }),
        [b"done", reader] => Some(Command::Done {
            reader: small(reader)?,
        }),
        [b"fail", rest @ ..] => Some(Command::Fail(failure(rest)?)),
        [b"remount"] => Some(Command::Remount),
        _ => None,
    }
}

fn work(words: &[&[u8]]) -> Option<WorkerDeed> {
    match words {
        [b"write", file, index, value] => Some(WorkerDeed::Write {
            file: small(file)?,
            index: small(index)?,
            byte: byte(value)?,
        }),
        [b"fill", file, first, last, value] => Some(WorkerDeed::Fill {
            file: small(file)?,
            first: small(first)?,
            last: small(last)?,
            byte: byte(value)?,
        }),
        [b"read", file, index] => Some(WorkerDeed::Read {
            file: small(file)?,
            index: small(index)?,
        }),
        [b"cut", file, length] => Some(WorkerDeed::Cut {
            file: small(file)?,
            length: small(length)?,
        }),
        [b"clean", cleaning] => Some(WorkerDeed::Clean(cleaning_of(cleaning)?)),
        [b"sync"] => Some(WorkerDeed::Sync),
        [b"look", reader] => Some(WorkerDeed::Look {
            reader: small(reader)?,
        }),
        _ => None,
    }
}

fn failure(words: &[&[u8]]) -> Option<Failure> {
    match words {
        [b"meta", call] => Some(Failure::Meta {
            call: count(call)?,
            late: false,
        }),
        [b"meta", call, b"late"] => Some(Failure::Meta {
            call: count(call)?,
            late: true,
        }),
        [b"block", call] => Some(Failure::Block { call: count(call)? }),
        _ => None,
    }
}

// A number from 1 on.
fn count(word: &[u8]) -> Option<u32>
    ensures some { IfSome result (λ n. (1 ≤ n) × IsNumeral word.now × (n ≡ decimal word.now)) }
    ensures none { IfNone result (IsNumeral word.now → 1 ≤ decimal word.now → 2 ^ 32 ≤ decimal word.now) }
{
    match small(word)? {
        0 => None,
        count => Some(count),
    }
}

fn shape_of(word: &[u8]) -> Option<Shape>
    ensures shape { IfSome result (λ shape. word.now ≡ shape_word shape) }
    ensures none { IfNone result ((shape : ShapeValue) → word.now ≢ shape_word shape) }
{
    match word {
        b"TINY" => Some(Shape::TINY),
        b"KERNEL" => Some(Shape::KERNEL),
        _ => None,
    }
}

fn kind_of(word: &[u8]) -> Option<Kind>
    ensures kind { IfSome result (λ kind. word.now ≡ kind_word kind) }
    ensures none { IfNone result ((kind : KindValue) → word.now ≢ kind_word kind) }
{
    match word {
        b"file" => Some(Kind::File),
        b"dir" => Some(Kind::Dir),
        b"media" => Some(Kind::Media),
        _ => None,
    }
}

fn cleaning_of(word: &[u8]) -> Option<Cleaning>
    ensures cleaning { IfSome result (λ cleaning. word.now ≡ cleaning_word cleaning) }
    ensures none { IfNone result ((cleaning : CleaningValue) → word.now ≢ cleaning_word cleaning) }
{
    match word {
        b"fg" => Some(Cleaning::Foreground),
        b"bg" => Some(Cleaning::Background),
        _ => None,
    }
}
