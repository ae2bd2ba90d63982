//! How the end of a run is told, and what is said of what it returned.
ghost use Rattle.std.specs.Prelude.{◌≡◌, List};
ghost use Rattle.ir_tree.specs.Wholes.{symbols};
ghost use Rattle.ir_tree.specs.declared.operand.Symbol.{Symbol};
ghost use Rattle.ir_parse_parts.specs.Literals.{IsWidth};
ghost use Rattle.ir_meaning.specs.Fault as fault;
ghost use Rattle.ir_meaning.specs.Operate.{bits_of as bits_in};
ghost use Rattle.ir_meaning.specs.declared.value.Value.TheVariants.{Number};
ghost use Rattle.ir_machine.specs.Meant.{symbol_at};
ghost use Rattle.machine_code.specs.MemoryAddresses.{key_symbol};
ghost use Rattle.ir_interp.specs.Scenes.{answer_meant};
ghost use Rattle.run_program.specs.Arguments.{IsGiven};
ghost use Rattle.run_program.specs.Files.{file_at, file_in, home_in};
ghost use Rattle.run_program.specs.Said.{IsTold, answer_said, bits_said, failure_refusal, typed_said};

use crate::literals::number_said;
use ir_interp::StepPlace;
use ir_machine::Scalar;
use ir_meaning::{Value, bits_of, symbol_of};
use ir_tree::{Cause, GlobalValue, Reg, Text};
use lto_fault::{Refusal, Returned};
use lto_words::FileName;
use machine_code::Key;
use std::alloc::Global;
use symbol_resolve::Resolution;

// ---- what a run returned

/// What is said of a number of this width; another counts as poison.
fn bits_said(width: u8, number: u64) -> Returned
    requires { IsWidth width }
    ensures { result ≡ bits_said width (bits_in width (Number number)) }
{
    match bits_of(width, &Value::Number(number)) {
        Some(bits) => number_said(width, bits),
        None => Returned::Poison,
    }
}

/// What is said of a number of this type.
fn typed_said(gives: Option<Reg>, number: u64) -> Returned
    requires { IsGiven gives }
    ensures { result ≡ typed_said gives (Number number) }
{
    match gives {
        Some(reg) => match reg {
            Reg::Int(width) => bits_said(width, number),
            Reg::Ptr => Returned::Poison,
        },
        None => Returned::Poison,
    }
}

/// What is said of the answer of a function that gives this type.
pub fn returned(gives: Option<Reg>, answer: Option<Scalar>) -> Returned
    requires { IsGiven gives }
    ensures { (names : List Symbol) → result ≡ answer_said gives (answer_meant names answer) }
{
    match answer {
        None => Returned::Nothing,
        Some(Scalar::Number(number)) => typed_said(gives, number),
        Some(Scalar::Pointer(_)) => Returned::Pointer,
        Some(Scalar::Poison) => Returned::Poison,
    }
}

// ---- where a run failed

/// The symbol of the global value of a place; an empty one where there is no such place.
fn key_at(globals: &[GlobalValue], place: usize) -> Key<'_>
    ensures { key_symbol result ≡ symbol_at (symbols globals.entry.now) place }
{
    match globals.get(place) {
        Some(global) => Key::of(symbol_of(global)),
        None => Key {
            home: None,
            name: &[],
        },
    }
}

/// The module that defines a symbol.
fn home_of(resolution: &Resolution<'_>, key: Key<'_>) -> Option<u32>
    ensures { result ≡ home_in resolution.now (key_symbol key.entry) }
{
    match key.home {
        Some(home) => Some(home),
        None => resolution.module_of(key.name),
    }
}

/// The file of a number.
fn file_at(names: &[FileName], number: Option<u32>) -> &[u8]
    ensures { result.now ≡ file_at names.now number }
{
    let Some(number) = number else {
        return &[];
    };
    match names.get(number as usize) {
        Some(name) => name.as_str().as_bytes(),
        None => &[],
    }
}

/// That a run failed at a place by undefined behaviour. The files are those of the modules that this resolves.
pub fn undefined(
    alloc: Global,
    globals: &[GlobalValue],
    names: &[FileName],
    resolution: &Resolution<'_>,
    cause: Cause,
    place: StepPlace,
) -> Refusal
    ensures { IsTold (failure_refusal (file_in names.now resolution.now (symbol_at (symbols globals.now) place.function)) (symbol_at (symbols globals.now) place.function).name place.instruction (fault.Undefined cause)) result }
{
    let key = key_at(globals, place.function as usize);
    let Ok(function) = Text::copied(alloc, key.name) else {
        return Refusal::NoMemory;
    };
    match Text::copied(alloc, file_at(names, home_of(resolution, key))) {
        Ok(file) => Refusal::Undefined {
            function,
            file,
            instruction: place.instruction,
            cause,
        },
        Err(_) => Refusal::NoMemory,
    }
}

/// That a run failed at a place by an uninitialised byte. The files are those of the modules that this resolves.
pub fn uninit(
    alloc: Global,
    globals: &[GlobalValue],
    names: &[FileName],
    resolution: &Resolution<'_>,
    place: StepPlace,
) -> Refusal
    ensures { IsTold (failure_refusal (file_in names.now resolution.now (symbol_at (symbols globals.now) place.function)) (symbol_at (symbols globals.now) place.function).name place.instruction fault.Uninit) result }
{
    let key = key_at(globals, place.function as usize);
    let Ok(function) = Text::copied(alloc, key.name) else {
        return Refusal::NoMemory;
    };
    match Text::copied(alloc, file_at(names, home_of(resolution, key))) {
        Ok(file) => Refusal::Uninit {
            function,
            file,
            instruction: place.instruction,
        },
        Err(_) => Refusal::NoMemory,
    }
}
