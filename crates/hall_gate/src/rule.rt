use super::turned::Turned;
use atomic_table::{Seat, TableRule};
use std::collections::LinkedList;
use std::marker::PhantomData;

/// Where a seat stands. The first two are the stages of a gate whose value is not in its slot yet;
/// they have the callers.
pub enum Stage {
    Unborn(LinkedList<u32>),
    Opening(LinkedList<u32>),
    Idle,
    Waiting(u64),
    Holding(u64),
}

/// One caller's place: the fixed part of the value, and what the caller has seen of the history.
pub struct Charge<F, E> {
    pub caller: u32,
    pub fixed: F,
    pub front: LinkedList<E>,
}

/// What a seat knows: its stage, the callers that it stands for, and the fronts that it was told of.
/// No value of it is made.
pub struct View<F, E> {
    pub stage: Stage,
    pub charges: LinkedList<Charge<F, E>>,
    pub heard: LinkedList<LinkedList<E>>,
}

pub type Knowledge<T> = View<<T as Turned>::Fixed, <T as Turned>::Entry>;

pub type Place<T> = Seat<Option<T>, View<<T as Turned>::Fixed, <T as Turned>::Entry>>;

/// The rule that each step on the lock keeps.
pub struct TurnRule<T> {
    value: PhantomData<T>,
}

impl<T: Turned> TableRule<Option<T>, View<T::Fixed, T::Entry>, Vec<u32>> for TurnRule<T> {
    ghost use Rattle.std.specs.Prelude.{[]};
    ghost use Rattle.hall_gate.specs.declared.rule.Stage.TheVariants.{Unborn};
    ghost use Rattle.hall_gate.specs.Knowing.{view};
    ghost use Rattle.hall_gate.specs.Rule.{Ruled};

    ghost holds = { λ k. Ruled T.valid T.fixed T.entries T.legal T.caller k.items };

    ghost first = { λ k. view (Unborn k.items) [] [] };
}
