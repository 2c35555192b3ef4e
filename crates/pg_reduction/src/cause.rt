// Why acts stop.
ghost use Rattle.std.specs.Prelude.{◌≡◌};
ghost use Rattle.pg_reduction.specs.declared.cause.ActFault.TheVariants.{OutOfMemory};

use pg_terms::{Formula, Name, Term};
use sqlite_items::Boxed;
use std::alloc::AllocError;

/// What is too large.
#[derive(Clone, Copy, Debug, PartialEq, Eq)]
pub enum Measure {
    /// The nodes of a formula, at most 4,096.
    Nodes,
    /// The height of a formula, at most 256.
    Height,
    /// The live variables of a goal, at most 64.
    Variables,
    /// The live hypotheses of a goal, at most 64.
    Hypotheses,
    /// The nodes of all formulas of a block's goals, at most 65,536.
    State,
}

/// Why a script stops. Each `at` is a byte of the source, at which a token begins, or the end.
#[derive(Drop)]
pub enum Cause {
    /// The text is no script.
    Syntax {
        at: u32,
    },
    /// No move has this word.
    NoSuchTactic {
        name: Name,
    },
    /// The move of this word is not available.
    LockedTactic {
        name: Name,
    },
    /// No hypothesis, variable or theorem has the name at this place.
    NoSuchName {
        at: u32,
    },
    /// The theorem of this number is not available.
    LockedTheorem {
        theorem: u32,
    },
    /// The two sides of the target are not one term.
    SidesDiffer {
        left: Boxed<Term>,
        right: Boxed<Term>,
    },
    /// The formula has not the form that the move takes.
    WrongShape,
    /// Nothing there is an instance of the pattern.
    NoInstance,
    /// Nothing says what stands for this binder.
    Undetermined {
        binder: Name,
    },
    /// The name is in use, declared or reserved.
    NameTaken {
        name: Name,
    },
    /// A limit is passed: what was reached.
    TooLarge {
        measure: Measure,
        reached: u64,
    },
    /// There is no goal.
    NoGoal,
    /// What begins at this place is no argument of the kind that is wanted, or is one too many.
    WrongArgument {
        at: u32,
    },
    /// The expression gives this formula, which is not the same as the one that is wanted.
    NotSame {
        found: Boxed<Formula>,
    },
    /// So many goals of a bullet are left open.
    LeftOpen {
        count: u32,
    },
    /// A block has so many goals, more than 64.
    TooMany {
        count: u32,
    },
    /// The pattern is a hole alone.
    BarePattern,
}

/// Why an act makes no goals.
#[derive(Drop)]
pub enum ActFault {
    /// The act stops.
    Stop(Cause),
    /// There was no memory.
    OutOfMemory,
}

impl From<AllocError> for ActFault {
    ghost from_gives = { λ _ e. e ≡ OutOfMemory };

    fn from(_e: AllocError) -> ActFault {
        ActFault::OutOfMemory
    }
}
