// What is kept of the commands before a place, and the faults of a command there.
ghost use Rattle.std.specs.Prelude.{◌≡◌, ◌++◌, ◌||◌, List, [], IfOk, OnOk, OnErr, None, Some, not, option_map, position};
ghost use Rattle.std.specs.Option.{is_some, option_and_then};
ghost use Rattle.std.specs.Str.{bytes_eq};
ghost use Rattle.pg_base.specs.Tokens.{word};
ghost use Rattle.pg_script.specs.View.{words};
ghost use Rattle.pg_commands.specs.View.{which};
ghost use Rattle.pg_faults.specs.View.{found};
ghost use Rattle.pg_gametext.specs.Before.{counts, current_world, holder, in_level, levels_of, statement_place, worlds};
ghost use Rattle.pg_gametext.specs.Checks as text;
ghost use Rattle.pg_gametext.specs.Faults.{least};
ghost use Rattle.pg_gametext.specs.Game.{end_faults};
ghost use Rattle.pg_gametext.specs.Placed.{Placed};
ghost use Rattle.pg_places.specs.There.{AreWorlds, Follows, HasRoom, IsLevel, IsStatement, IsText, IsWorldCalled, OthersLaw, Stands, levels_here, texts_here};
ghost use Rattle.pg_places.specs.View.{helds, there};

use crate::moves::move_fault;
use crate::number::number_fault;
use crate::single::{clash, one_more, out_of_place};
use crate::texts::Texts;
use crate::world::{
    World, add_level, add_text_at, has_world, is_world_name, levels_at, place_for, texts_at,
};
use pg_base::{Token, Wanted, decoded};
use pg_commands::Which;
use pg_faults::{Fault, Kind, LimitName, sooner};
use std::alloc::{AllocError, Global};

/// How many worlds a game may have.
const MOST_WORLDS: u16 = 64;
/// How many levels a world may have.
const MOST_LEVELS: u16 = 64;

/// What the commands before a place of a game text say of worlds, levels, texts and statements.
#[derive(Drop)]
pub struct Places {
    worlds: Vec<World>,
    current: Option<usize>,
    in_level: bool,
    lacks_statement: bool,
    statement: Option<u32>,
    has_level: bool,
    game: Texts,
    level: Texts,
}

impl Places {
    /// What no commands say.
    pub fn new(alloc: Global) -> Places
        ensures { Stands (there result) [] }
    {
        Places {
            worlds: Vec::new(alloc),
            current: None,
            in_level: false,
            lacks_statement: false,
            statement: None,
            has_level: false,
            game: Texts::none(),
            level: Texts::none(),
        }
    }

    /// The worlds in the order of their first `World`.
    pub fn worlds(&self) -> &[World]
        ensures worlds { result.now ≡ self.now.worlds.items }
        ensures of_text { (before : List Placed) → Stands (there self.now) before → AreWorlds (helds result.now) before }
    {
        self.worlds.as_slice()
    }

    /// The place of the current world among the worlds: of the one whose `World` stands nearest before.
    pub fn current(&self) -> Option<usize>
        ensures place { result ≡ self.now.current }
        ensures of_text { (before : List Placed) → Stands (there self.now) before → result ≡ option_and_then (λ x. position (bytes_eq x) (worlds before)) (current_world before) }
    {
        self.current
    }

    /// How many levels the current world has so far, which is the number of the last one; 0 where there is none.
    pub fn level_number(&self) -> u16
        ensures count { result ≡ levels_here (there self.now) }
        ensures of_text { (before : List Placed) → Stands (there self.now) before → result ≡ levels_of (current_world before) before }
    {
        match self.current {
            Some(place) => levels_at(self.worlds.as_slice(), place),
            None => 0,
        }
    }

    /// The first fault of a title, an introduction or a conclusion whose word stands here: it stood before.
    pub fn text_fault(&self, at: u32, kind: Which) -> Option<Fault>
        ensures { (before : List Placed) → Stands (there self.now) before → found result ≡ least (text.text_faults before at (which kind)) }
    {
        if self.passes_over(kind) {
            None
        } else {
            clash(at, self.texts().place(kind))
        }
    }

    /// The first fault of a `World` whose word stands here, with its name where it has one: it is out of its place, its
    /// name is none, or there are as many worlds as there may be. `AllocError` comes where there is no memory.
    pub fn world_fault(
        &self,
        alloc: Global,
        at: u32,
        name: Option<&Token<'_>>,
    ) -> Result<Option<Fault>, AllocError>
        ensures { IfOk result (λ f. (before : List Placed) → Stands (there self.now) before → found f ≡ least (text.world_faults before at (option_map (λ t. word t.now) name.entry))) }
    {
        let misplaced = out_of_place(self.lacks_statement, at, Wanted::Command);
        match name {
            Some(name) => Ok(sooner(misplaced, self.name_fault(alloc, at, name)?)),
            None => Ok(misplaced),
        }
    }

    /// The first fault of a `Level` whose word stands here, with its number where it has one: it is out of its place,
    /// the world has as many levels as it may have, or the number is another one than the next.
    pub fn level_fault(&self, at: u32, number: Option<&Token<'_>>) -> Option<Fault>
        ensures first { (before : List Placed) → Stands (there self.now) before → found result ≡ least (text.level_faults before at (option_map (λ t. word t.now) number.entry)) }
        ensures room { (before : List Placed) → Stands (there self.now) before → result ≡ None → HasRoom (there self.now) }
    {
        let levels = self.level_number();
        let misplaced = self.has_no_place_for_level();
        let too_many = one_more(LimitName::Levels, MOST_LEVELS, usize::from(levels), at);
        let gap = number_fault(u32::from(levels) + 1, number);
        sooner(
            out_of_place(misplaced, at, Wanted::Command),
            sooner(too_many, gap),
        )
    }

    /// The first fault of a command that lists these moves, and whose word stands here.
    pub fn tactics_fault(&self, at: u32, names: &[Token<'_>]) -> Option<Fault>
        ensures { (before : List Placed) → Stands (there self.now) before → found result ≡ least (text.out_of_place (not (in_level before)) at ++ text.move_faults (words names.now)) }
    {
        sooner(self.theorems_fault(at), move_fault(names))
    }

    /// The fault of a command that lists theorems, and whose word stands here: there is no level.
    pub fn theorems_fault(&self, at: u32) -> Option<Fault>
        ensures { (before : List Placed) → Stands (there self.now) before → found result ≡ least (text.out_of_place (not (in_level before)) at) }
    {
        out_of_place(!self.in_level, at, Wanted::Command)
    }

    /// The first fault of the place of a `Statement` whose word stands here: there is no level, or it has a statement.
    pub fn statement_fault(&self, at: u32) -> Option<Fault>
        ensures { (before : List Placed) → Stands (there self.now) before → found result ≡ least (text.out_of_place (not (in_level before)) at ++ text.clash_fault at (statement_place before)) }
    {
        sooner(self.theorems_fault(at), clash(at, self.statement))
    }

    /// The fault of a text that ends here: it has no level, or its last level has no statement.
    pub fn end_fault(&self, end: u32) -> Option<Fault>
        ensures { (before : List Placed) → Stands (there self.now) before → found result ≡ least (end_faults end before) }
    {
        out_of_place(
            self.lacks_statement || !self.has_level,
            end,
            Wanted::Command,
        )
    }

    /// Notes a title, an introduction or a conclusion whose word stands here.
    pub fn add_text(&mut self, at: u32, kind: Which)
        ensures { Follows (there self.old) (there self.new) at (IsText (which kind)) }
    {
        if self.in_level {
            self.level = self.level.with(kind, at);
        } else if let Some(place) = self.current {
            add_text_at(self.worlds.as_mut_slice(), place, kind, at);
        } else {
            self.game = self.game.with(kind, at);
        }
    }

    /// Notes a `World` of this name, also one that goes on with a world. Without memory nothing changes.
    pub fn add_world(&mut self, alloc: Global, at: u32, name: &Token<'_>) -> Result<(), AllocError>
        ensures ok { OnOk result (Follows (there self.old) (there self.new) at (IsWorldCalled (word name.now))) }
        ensures err { OnErr result (there self.new ≡ there self.old) }
    {
        let place = place_for(&mut self.worlds, decoded(alloc, name.text)?)?;
        self.current = Some(place);
        self.in_level = false;
        self.lacks_statement = false;
        self.statement = None;
        Ok(())
    }

    /// Notes a `Level`. The current world must have room for one more.
    pub fn add_level(&mut self, at: u32)
        requires { HasRoom (there self.old) }
        ensures { Follows (there self.old) (there self.new) at IsLevel }
    {
        add_level(self.worlds.as_mut_slice(), self.current);
        self.in_level = true;
        self.lacks_statement = true;
        self.statement = None;
        self.has_level = true;
        self.level = Texts::none();
    }

    /// Notes a `Statement` whose word stands here.
    pub fn add_statement(&mut self, at: u32)
        ensures { Follows (there self.old) (there self.new) at IsStatement }
    {
        self.lacks_statement = false;
        self.statement = self.statement.or(Some(at));
    }

    /// The fault of the name of a `World` whose word stands here.
    fn name_fault(
        &self,
        alloc: Global,
        at: u32,
        name: &Token<'_>,
    ) -> Result<Option<Fault>, AllocError>
        ensures { IfOk result (λ f. (before : List Placed) → Stands (there self.now) before → found f ≡ least (text.world_faults_of before at (word name.now))) }
    {
        let meant = decoded(alloc, name.text)?;
        if !is_world_name(meant.as_bytes()) {
            return Ok(Some(Fault {
                at: name.at,
                kind: Kind::Expected(Wanted::Name),
            }));
        }
        if has_world(self.worlds.as_slice(), meant.as_str()) {
            return Ok(None);
        }
        Ok(one_more(LimitName::Worlds, MOST_WORLDS, self.worlds.len(), at))
    }

    /// Whether a `Level` may not stand here: a statement is lacking, or there is no world.
    fn has_no_place_for_level(&self) -> bool
        ensures { result ≡ (self.now.lacks_statement || not (is_some self.now.current)) }
    {
        self.lacks_statement || self.current.is_none()
    }

    /// Whether such a command here is passed over: a world's conclusion is.
    fn passes_over(&self, kind: Which) -> bool
        ensures { (before : List Placed) → Stands (there self.now) before → not result ≡ counts (which kind) (holder before) }
    {
        matches!(kind, Which::Conclusion) && !self.in_level && self.current.is_some()
    }

    /// Where the texts stand of what a text here would be of: the level, or else the world, or else the game.
    fn texts(&self) -> Texts
        ensures { result ≡ texts_here (there self.now) }
    {
        if self.in_level {
            return self.level;
        }
        match self.current {
            Some(place) => texts_at(self.worlds.as_slice(), place),
            None => self.game,
        }
    }
}

/// Commands of all other kinds change nothing.
pub fn others_law()
    ensures { OthersLaw }
{}
