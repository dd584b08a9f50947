ghost use Rattle.std.specs.Prelude.{◌≡◌, ◌+◌, ◌≤◌, ℕ, false, true, IfOk, IfSome, List, None, length};
ghost use Rattle.fc_position.specs.Board.{Board};
ghost use Rattle.fc_position.specs.Position.{Fits, IsPosition};
ghost use Rattle.fc_moves.specs.GameRules.{IsPositionOf};
ghost use Rattle.fc_moves.specs.Step.{Allows, Step};
ghost use Rattle.fc_codes.specs.State.{AreMoved, IsCodeOf};
ghost use Rattle.fc_codes.specs.Spelled.{board_of_code};
ghost use Rattle.fc_bound.specs.declared.kinds.BoundKind.TheVariants.{Clearing};
ghost use Rattle.fc_bound.specs.Kinds.{IsShown};
ghost use Rattle.fc_best_first.specs.Graph.{IsReached};
ghost use Rattle.fc_best_first.specs.Turn.{AreChildrenBut};
ghost use Rattle.fc_best_first.specs.declared.spaces.Child.{Child};
ghost use Rattle.fc_classes.specs.Namings.{IsCodeIn, by_codes};
ghost use Rattle.fc_classes.specs.Classes.{classes};
ghost use Rattle.fc_classes.proofs.NamingLemmas.{codes_name};
ghost use Rattle.fc_classes.proofs.TableLemmas.{lawful};
ghost use Rattle.fc_space.specs.Children.{frame_by, frame_left, AreLeft, IsWalkIn, IsSettledChild, IsChildOf, StandsAt};
ghost use Rattle.fc_space.specs.inner.Children.{classes_in};
ghost use Rattle.fc_space.specs.inner.Codes.{IsCodeAfter};

use crate::child_walks::{Children, Standing};
use crate::coded::settle_coded;
use crate::lookups::Lookup;
use crate::visits::list_moves;
use arrayvec::ArrayVec;
use fc_best_first::{Child, Noted, Space};
use fc_bound::{BoundKind, Shown};
use fc_codes::{Code, Layout};
use fc_home::HomeRule;
use fc_methods::Method;
use fc_moves::{Game, Move, apply};
use fc_position::Position;
use std::alloc::{AllocError, Global};

/// How positions of a game make classes: they are settled by a home rule, and have a bound of a kind.
#[derive(Drop)]
pub struct ClassRules<G: Game + Drop> {
    pub game: G,
    pub rule: HomeRule,
    pub kind: BoundKind,
}

/// The classes that can be reached from a position that fits a game, as a space to be searched. Each is known by its code,
/// as seen from there.
#[derive(Drop)]
pub struct Positions<G: Game + Drop> {
    pub rules: ClassRules<G>,
    pub start: Position,
    pub(crate) layout: Layout,
    pub ghost fits: { IsPositionOf (G.game rules.game) start },
    pub ghost laid: { layout ≡ start },
}

impl<G: Game + Drop> Positions<G> {
    /// The classes from a position that fits the game, by the home rule and the bound of a method.
    pub fn new(game: G, method: Method, start: Position) -> Self
        requires fits { Fits (G.game game).cells start }
        ensures game { result.rules.game ≡ game }
        ensures rule { result.rules.rule ≡ method.rule }
        ensures kind { result.rules.kind ≡ method.bound }
        ensures start { result.start ≡ start }
    {
        let Method { rule, bound, .. } = method;
        let rules = ClassRules {
            game,
            rule,
            kind: bound,
        };
        let layout = Layout::new(&start);
        Positions {
            rules,
            start,
            layout,
        }
    }

    /// The canonical position of the class with this code, which is that of a position of the game.
    #[inline]
    pub fn position(&self, code: &Code) -> Position
        requires code { IsCodeIn self.now.start (G.game self.now.rules.game) code.now }
        ensures value { result ≡ board_of_code self.now.start code.now }
        ensures whole { IsPosition result }
    {
        self.layout.position_of(code)
    }

    // Makes a position the canonical one of the class with this code, which is that of a position of the game. The cards that have
    // moved since the start, one bit for each.
    #[inline(always)]
    fn read(&self, code: &Code, position: &mut Position) -> u64
        requires code { IsCodeIn self.now.start (G.game self.now.rules.game) code.now }
        ensures value { position.new ≡ board_of_code self.now.start code.now }
        ensures whole { IsPosition position.new }
        ensures moved { AreMoved code.now result }
    {
        self.layout.read(code, position)
    }

    // A walk with no child left, which stands at a class that was reached.
    fn walk(&self, code: &Code) -> Children<G>
        requires reached { (d : ℕ) × IsReached (classes_in (frame_by G.game self.now.rules self.now.start)) code.now d }
        ensures owned { IsWalkIn G.game (frame_by G.game self.now.rules self.now.start) result }
        ensures last { result.last ≡ None }
        ensures code { IsCodeOf result.start result.position code.now }
    {
        let position = self.position(code);
        let lookup = Lookup::new(&self.start, &position);
        let shown = self.rules.kind.shown(&position, &lookup.table);
        Children {
            rules: ClassRules {
                game: self.rules.game.copy(),
                rule: self.rules.rule,
                kind: self.rules.kind,
            },
            layout: self.layout.copy(),
            position,
            code: *code,
            shown,
            left: ArrayVec::new(),
            standing: Standing::Here,
            lookup,
            kept: None,
        }
    }

    // Begins a walk of this space anew at a class that was reached, of which this is shown, and tells whether it leaves children out, as
    // it may at a first visit.
    fn set_out(&self, code: &Code, shown: Shown, is_first: bool, walk: &mut Children<G>) -> bool
        requires owned { IsWalkIn G.game (frame_by G.game self.now.rules self.now.start) walk.old }
        requires reached { (d : ℕ) × IsReached (classes_in (frame_by G.game self.now.rules self.now.start)) code.now d }
        requires shown { IsShown self.now.rules.kind (board_of_code self.now.start code.now) shown.number shown.note }
        ensures owned { IsWalkIn G.game (frame_by G.game self.now.rules self.now.start) walk.new }
        ensures children { (children : List (Child (List ℕ))) → AreLeft G.game walk.new children
            → AreChildrenBut (classes_in (frame_by G.game self.now.rules self.now.start)) code.now shown.number result children }
        ensures later { is_first ≡ false → result ≡ false }
    {
        let moved = self.read(code, &mut walk.position);
        walk.code = *code;
        walk.shown = shown;
        walk.kept = None;
        walk.standing = Standing::Here;
        let is_asked = looks_up(walk.rules.kind, is_first);
        walk.lookup.lay(is_asked, &walk.position, moved);
        list_moves(
            &self.rules.game,
            &walk.position,
            &walk.lookup.table,
            shown.note,
            is_first,
            &mut walk.left,
        )
    }
}

// Whether a visit looks anything up of columns: by the plain bound only a first one does.
#[inline(always)]
fn looks_up(kind: BoundKind, is_first: bool) -> bool
    ensures first { is_first ≡ true → result ≡ true }
    ensures clearing { kind ≡ Clearing → result ≡ true }
{
    match kind {
        BoundKind::Plain => is_first,
        BoundKind::Clearing => true,
    }
}

// What the position with this code settles to, as a code, and in how many moves.
#[inline(always)]
fn settled<G: Game + Drop>(rules: &ClassRules<G>, position: &mut Position, code: Code) -> (Code, u8)
    ensures settled { (s : Board) → IsCodeOf s position.old code → IsSettledChild (frame_by G.game rules.now s) position.old 0 (record { key = result.0; cost = result.1 }) }
    ensures few { result.1 ≤ 52 }
{
    let (settling, code) = settle_coded(&rules.game, rules.rule, position, code);
    (code, settling.len() as u8)
}

// What the result of a move settles to, as a code, and in how many moves, by the code of the result: made on a copy of the position.
pub(crate) fn child_by_copy<G: Game + Drop>(
    rules: &ClassRules<G>,
    position: &Position,
    m: Move,
    code: Code,
) -> (Code, u8)
    requires allowed { Allows (G.game rules.now.game) position.now m }
    ensures child { (s : Board) → IsCodeAfter s (G.game rules.now.game) position.now m code
        → IsChildOf (frame_by G.game rules.now s) position.now m (record { key = result.0; cost = 1 + result.1 }) }
    ensures few { result.1 ≤ 52 }
{
    let mut next = position.copy();
    apply(&rules.game, &mut next, m);
    settled(rules, &mut next, code)
}

impl<G: Game + Drop> Space<Code> for Positions<G> {
    ghost graph = { λ s. classes (by_codes s.start) s.rules.kind (G.game s.rules.game) s.rules.rule s.start };

    type Walk = Children<G>;

    ghost rest = { λ w children. AreLeft G.game w children };

    ghost left = { λ w. length w.moves };

    ghost owns = { λ s w. IsWalkIn G.game (frame_by G.game s.rules s.start) w };

    ghost at = { λ w. StandsAt (frame_left G.game w) w.position w.last };

    fn start(&self, _alloc: Global) -> Result<(Child<Code>, Children<G>), AllocError> {
        let mut start = self.start.copy();
        let (key, cost) = settled(&self.rules, &mut start, self.layout.start_code());
        let walk = self.walk(&key);
        Ok((Child { key, cost }, walk))
    }

    fn is_won(&self, code: &Code) -> bool {
        *code == Code::all_home()
    }

    #[inline(always)]
    fn least(&self, walk: &Children<G>) -> u8 {
        walk.least()
    }

    #[inline(always)]
    fn key(&self, walk: &Children<G>) -> Code {
        walk.key()
    }

    fn noted(&self, walk: &mut Children<G>, _code: &Code, most: u8) -> Noted {
        let shown = walk.shown_there(most).of_cards();
        Noted {
            bound: shown.number,
            note: shown.note,
        }
    }

    #[inline(always)]
    fn visit(&self, code: &Code, noted: Noted, is_first: bool, walk: &mut Children<G>) -> bool {
        let shown = Shown {
            number: noted.bound,
            note: noted.note,
        };
        self.set_out(code, shown, is_first, walk)
    }

    #[inline(always)]
    fn next(&self, walk: &mut Children<G>) -> Option<u8> {
        let m = walk.left.pop()?;
        Some(walk.step(m))
    }

    ghost lawful = { λ s. lawful (by_codes s.start) s.rules.kind (G.game s.rules.game) s.rules.rule s.start
        (codes_name (G.game s.rules.game) s.start (G.sound s.rules.game) s.fits) s.fits };
}
