// What document 01 says, as definitions: what a reader must believe, beside what they build on (specs/ of crates `monotone` and `fault`).
//
// This file declares the values that public calls take and answer with. specs/ gives their meaning, section by section of the document;
// specs/Lib.antt lists the modules. Every definition computes.
//
// proofs/ ties them to the theory of the crate `monotone`: slack and required pressure, the accept test, the orderings, that
// a film which passes its tests makes every call a good one, and that the formed coefficients are Reynolds' difference
// form; that reader and writer undo each other; demand 3, of films and of the calls themselves; and film F's edges as one theorem.
#![tactic(auto)]

use fault::Fault;
use std::marker::Model;

// A film's shape and ceiling.
#[derive(Clone, Copy)]
pub struct Head {
    pub rows: u32,
    pub columns: u32,
    pub ceiling: u32,
}

// A film as coefficients, as a call is lent it: in contracts it is model/specs/Film's.
#[derive(Drop)]
pub struct Film<'a> {
    pub head: Head,
    pub weights: &'a [u16],
    pub diagonals: &'a [u32],
    pub rights: &'a [u32],
    pub ups: &'a [u32],
    pub sources: &'a [i64],
}

impl<'a> Model for Film<'a> {
    ghost use Rattle.model.specs.Film.{Film as FilmValue, film_of};

    ghost Value = { FilmValue };

    ghost view = { λ f. film_of f.head f.weights.now f.diagonals.now f.rights.now f.ups.now f.sources.now };
}

// Document 02, W2: what links within a row, and between rows, are multiplied by.
#[derive(Clone, Copy)]
pub struct Factors {
    pub along: u32,
    pub across: u32,
}

// A gauged film, as a call is lent it: in contracts it is model/specs/Gauge's. Its grid steps are there if it has a field for them.
#[derive(Drop)]
pub struct Gauged<'a> {
    pub head: Head,
    pub weights: &'a [u16],
    pub thicknesses: &'a [u8],
    pub wedge: i32,
    pub steps: Option<Factors>,
}

impl<'a> Model for Gauged<'a> {
    ghost use Rattle.model.specs.Gauge.{Gauge};
    ghost use Rattle.model.specs.FileCalls.{gauge_of};

    ghost Value = { Gauge };

    ghost view = { λ g. gauge_of g.head g.weights.now g.thicknesses.now g.wedge g.steps };
}

// A refused call: why, and where.
#[derive(Clone, Copy)]
pub struct Refusal {
    pub fault: Fault,
    pub place: usize,
}

// What a relaxation finds: the cell is quiet, raised to a pressure, or would pass the ceiling.
#[derive(Clone, Copy)]
pub enum Relaxed {
    Quiet,
    Raised(u32),
    Over(usize),
}

// What a run counts: relaxations, raises that they made, and cells raised by accepted proposals.
#[derive(Clone, Copy)]
pub struct Counts {
    pub visits: u32,
    pub raises: u32,
    pub accepted: u32,
}

// How a run ends.
#[derive(Clone, Copy)]
pub enum Ran {
    Done(Counts),
    Stopped(Counts),
    Over(usize, Counts),
}

// What the film file's reader answers; weights and thicknesses are in the lent buffers.
#[derive(Clone, Copy)]
pub struct Numbers {
    pub head: Head,
    pub wedge: i32,
    pub steps: Option<Factors>,
}
