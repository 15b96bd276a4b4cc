//! The lines of a script so far, and how one more is read.
ghost use Rattle.std.specs.Prelude.{◌≡◌, ◌+◌, ◌<◌, ◌≤◌, [], length, map, None, OnOk, IfErr};
ghost use Rattle.cml_grammar.specs.{words_of, is_bad_byte, version_in, fault_in, fault_in_words, is_bad_header, says, after, after_words};
ghost use Rattle.cml_grammar.specs.{IsWhat};

use crate::checks::fault_in_form;
use crate::fault::What;
use crate::forms::{Declares, Form, Verb};
use crate::meaning::{
    action_by, lane_by, makes_by, name_by, name_given, named_by, owner_of, threads_with,
};
use crate::names::{Named, Users};
use crate::script::{Declaration, Kept, Lane, Line, Script, Step};
use crate::words::{has_bad_byte, has_empty_word, is_skipped, split_words};
use indexmap::IndexMap;
use std::alloc::Global;
use std::marker::Model;

const HEADER: &[u8; 5] = b"cml 1";

const HEADER_WITH_TEXTS: &[u8; 5] = b"cml 2";

/// The lines so far. Contracts see them as a script.
#[derive(Drop)]
pub(crate) struct Reading {
    kept: Kept,
    threads: u64,
}

impl Model for Reading {
    ghost use Rattle.cml_grammar.specs.Script.{Lines};

    ghost Value = { Lines };

    ghost use Rattle.cml_grammar.specs.Reading.{view_of, IsReadSoFar};

    ghost view = { λ r. view_of r.kept.version r.kept.declarations.items r.kept.lanes.items r.kept.steps.items };

    ghost invariant = { λ r. IsReadSoFar (view_of r.kept.version r.kept.declarations.items r.kept.lanes.items r.kept.steps.items)
        r.kept.names.entries r.kept.declarations.items r.kept.lanes.items r.kept.capacities.entries r.kept.steps.items r.threads };
}

fn is_bad_header(number: u64, line: &[u8]) -> bool
    ensures { result ≡ is_bad_header number line.now }
{
    number == 1 && line != HEADER.as_slice() && line != HEADER_WITH_TEXTS.as_slice()
}

/// The version that a first line asks for.
pub(crate) fn version_in(line: &[u8]) -> u64
    ensures { result ≡ version_in line.now }
{
    if line == HEADER_WITH_TEXTS.as_slice() {
        2
    } else {
        1
    }
}

/// Whether the line says something: it is not the header, and is not skipped.
fn says(number: u64, line: &[u8]) -> bool
    ensures { result ≡ says number line.now }
{
    number != 1 && !is_skipped(line)
}

impl Reading {
    ghost use Rattle.std.specs.Prelude.{string_bytes, Some};
    ghost use Rattle.cml_grammar.specs.Forms.{declaration, lane, step, form_of};
    ghost use Rattle.cml_grammar.specs.Faults.{start};
    ghost use Rattle.cml_grammar.specs.Meaning.{scope_of, names_of};
    ghost use Rattle.cml_grammar.specs.Reading.{with_words, with_next};

    pub(crate) fn new(alloc: Global, version: u64) -> Reading
        ensures { result ≡ record { version = version; declarations = []; lanes = []; steps = [] } }
    {
        let kept = Kept {
            version,
            names: IndexMap::new(alloc),
            declarations: Vec::new(alloc),
            lanes: Vec::new(alloc),
            capacities: IndexMap::new(alloc),
            steps: Vec::new(alloc),
        };
        Reading { kept, threads: 0 }
    }

    #[tactic(auto, using(crate::proofs::WordLemmas::text_from_bytes))]
    pub(crate) fn read_line(&mut self, alloc: Global, number: u64, line: &[u8]) -> Result<(), What>
        ensures fits { OnOk result (fault_in (scope_of self.old) number line.now ≡ None) }
        ensures lines { OnOk result (self.new ≡ with_next self.old number line.now) }
        ensures scope { OnOk result (scope_of self.new ≡ after (scope_of self.old) number line.now) }
        ensures fault { IfErr result (λ what. IsWhat what (fault_in (scope_of self.old) number line.now)) }
    {
        if has_bad_byte(line) {
            return Err(What::BadBytes);
        }
        if is_bad_header(number, line) {
            return Err(What::BadHeader);
        }
        if !says(number, line) {
            return Ok(());
        }
        match str::from_utf8(line) {
            Ok(text) => self.read_words(alloc, number, text),
            Err(_) => unreachable!(),
        }
    }

    fn read_words(&mut self, alloc: Global, number: u64, text: &str) -> Result<(), What>
        ensures fits { OnOk result (fault_in_words (scope_of self.old) (words_of text.now) ≡ None) }
        ensures lines { OnOk result (self.new ≡ with_words self.old number text.now) }
        ensures scope { OnOk result (scope_of self.new ≡ after_words (scope_of self.old) (words_of text.now)) }
        ensures fault { IfErr result (λ what. IsWhat what (fault_in_words (scope_of self.old) (words_of text.now))) }
    {
        let words = split_words(alloc, text)?;
        if has_empty_word(&words) {
            return Err(What::BadWords);
        }
        let form = Form::of_words(&self.kept.names, &words);
        let started = !self.kept.steps.is_empty();
        if let Some(what) = fault_in_form(
            self.kept.version,
            &self.kept.names,
            self.threads,
            started,
            &self.kept.capacities,
            &form,
        ) {
            return Err(what);
        }
        let text = String::from_str(alloc, text)?;
        let line = Line { number, text };
        match form {
            Form::Declaration(declares, rest) => self.declare(alloc, line, declares, rest),
            Form::Lane(rest) => self.lay(line, rest),
            Form::Step(seat, verb, rest) => self.step(alloc, line, seat, verb, rest),
            _ => unreachable!(),
        }
    }

    /// Adds a declaration that is without fault. An `Err` is for want of memory, and changes nothing.
    fn declare(
        &mut self,
        alloc: Global,
        line: Line,
        declares: Declares,
        rest: &[&str],
    ) -> Result<(), What>
        requires fits { fault_in_words (scope_of self.old) (words_of (string_bytes line.text)) ≡ None }
        requires form { form_of (names_of self.old) (words_of (string_bytes line.text)) ≡ declaration declares (map (λ w. w.now) rest.now) }
        ensures lines { OnOk result (self.new ≡ with_words self.old line.number (string_bytes line.text)) }
        ensures scope { OnOk result (scope_of self.new ≡ after_words (scope_of self.old) (words_of (string_bytes line.text))) }
        ensures memory { IfErr result (λ what. what ≡ What.Memory) }
    {
        let owner = owner_of(&self.kept.names, rest);
        let named = named_by(declares, self.threads, owner);
        let threads = threads_with(declares, self.threads);
        let makes = makes_by(alloc, &self.kept.names, declares, rest)?;
        let name = String::from_str(alloc, name_by(&self.kept.names, declares, rest))?;
        self.kept.declarations.reserve(1)?;
        self.kept.names.insert(name, named)?;
        self.kept
            .declarations
            .push_reserved(Declaration { line, makes });
        self.threads = threads;
        Ok(())
    }

    /// Adds a lane that is without fault. An `Err` is for want of memory, and changes nothing.
    fn lay(&mut self, line: Line, rest: &[&str]) -> Result<(), What>
        requires fits { fault_in_words (scope_of self.old) (words_of (string_bytes line.text)) ≡ None }
        requires form { form_of (names_of self.old) (words_of (string_bytes line.text)) ≡ lane (map (λ w. w.now) rest.now) }
        ensures lines { OnOk result (self.new ≡ with_words self.old line.number (string_bytes line.text)) }
        ensures scope { OnOk result (scope_of self.new ≡ after_words (scope_of self.old) (words_of (string_bytes line.text))) }
        ensures memory { IfErr result (λ what. what ≡ What.Memory) }
    {
        let lane = lane_by(&self.kept.names, line, rest);
        self.kept.lanes.reserve(1)?;
        self.kept
            .capacities
            .insert((lane.seat, lane.target), lane.capacity)?;
        self.kept.lanes.push_reserved(lane);
        Ok(())
    }

    /// Adds a step that is without fault. An `Err` is for want of memory, and changes nothing.
    fn step(
        &mut self,
        alloc: Global,
        line: Line,
        seat: u64,
        verb: Verb,
        rest: &[&str],
    ) -> Result<(), What>
        requires fits { fault_in_words (scope_of self.old) (words_of (string_bytes line.text)) ≡ None }
        requires form { form_of (names_of self.old) (words_of (string_bytes line.text)) ≡ step seat verb (map (λ w. w.now) rest.now) }
        ensures lines { OnOk result (self.new ≡ with_words self.old line.number (string_bytes line.text)) }
        ensures scope { OnOk result (scope_of self.new ≡ after_words (scope_of self.old) (words_of (string_bytes line.text))) }
        ensures memory { IfErr result (λ what. what ≡ What.Memory) }
    {
        let action = action_by(alloc, &self.kept.names, verb, rest)?;
        let step = Step { line, seat, action };
        match name_given(verb, rest) {
            None => {
                self.kept.steps.push(step)?;
                return Ok(());
            }
            Some(name) => {
                let name = String::from_str(alloc, name)?;
                self.kept.steps.reserve(1)?;
                self.kept.names.insert(name, Named::Port(Users::One(seat)))?;
                self.kept.steps.push_reserved(step);
                return Ok(());
            }
        }
    }

    /// The script of these lines.
    pub(crate) fn into_script(self) -> Script
        requires few { length self.declarations ≤ 1048576 }
        requires narrow { length self.lanes ≤ 1048576 }
        requires short { length self.steps ≤ 1048576 }
        ensures { result ≡ self }
    {
        let Reading { kept, threads: _ } = self;
        Script::new(kept)
    }
}
