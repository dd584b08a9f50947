ghost use Rattle.std.specs.Prelude.{◌≡◌, ◌↔◌, IsSome, IfSome};
ghost use Rattle.fc_methods.specs.declared.methods.Method.{Method};
ghost use Rattle.fc_best_first.specs.Limits.{IsBudget, IsGreatBudget};
ghost use Rattle.fc_methods.specs.Method.{best_method};

use crate::forms::{Colours, MovesForm, ReplayForm};
use crate::game_names::GameName;
use fc_methods::{BoundKind, Budget, Expansion, GreatBudget, HomeRule, Method, Strategy, Weight};

/// What a command line asks for.
#[derive(Drop)]
pub enum Command<'a> {
    /// A numbered deal is printed.
    Deal(DealWords),
    /// A board is drawn.
    Show(ShowWords<'a>),
    /// The best answer of a board is asked for.
    Best(BestWords<'a>),
    /// The next moves of the best answer of a board are asked for.
    Hint(HintWords<'a>),
    /// A board is solved.
    Solve(SolveWords<'a>),
    /// A certificate is checked.
    Check(CheckWords<'a>),
    /// A list of moves is replayed.
    Replay(ReplayWords<'a>),
    /// It is asked where a list of moves loses, or how good it is.
    Review(ReviewWords<'a>),
    /// Several boards are solved.
    Batch(BatchWords<'a>),
}

/// What is said of a game, of which a board is one.
#[derive(Clone, Copy)]
pub struct GameWords {
    /// Which cards stand on which.
    pub game: GameName,
    /// Whether only kings may go to an empty column.
    pub kings: bool,
    /// The number of cells, 0 to 4.
    pub cells: u8,
}

/// What names a board.
#[derive(Clone, Copy)]
pub enum BoardWord<'a> {
    /// The numbered deal; the number is as it was told, and may be no deal's.
    Deal(u32),
    /// The file of this name, or, where none has it and it is a number, the numbered deal.
    Named(&'a str),
    /// Standard input.
    Input,
}

/// How the texts of boards are to be read.
#[derive(Clone, Copy)]
pub struct TextWords {
    /// Whether they have the rows across the table, and not the columns.
    pub is_in_rows: bool,
    /// Whether the cards that one lacks are taken for home, where they are runs from the aces.
    pub is_guessed: bool,
}

/// A board, and how its text is to be read.
#[derive(Clone, Copy)]
pub struct BoardWords<'a> {
    /// What names it.
    pub word: BoardWord<'a>,
    pub text: TextWords,
}

/// What names a list of moves, or a certificate.
#[derive(Clone, Copy)]
pub enum FileWord<'a> {
    /// The file of this name.
    File(&'a str),
    /// Standard input.
    Input,
}

/// How a position is to be searched.
#[derive(Clone, Copy)]
pub struct SearchWords {
    /// Which cards go home at once.
    pub rule: HomeRule,
    /// How many times a bound counts.
    pub weight: Weight,
    /// The kind of bound.
    pub bound: BoundKind,
    /// Which children of a class are stored with it.
    pub expansion: Expansion,
    /// How many classes of positions may be stored, as it was told: it may be none, or more than a budget can be.
    pub budget: u32,
}

impl SearchWords {
    /// The method that is asked for; `None` where the budget is outside 1 to 4,000,000.
    pub fn method(&self) -> Option<Method>
        ensures range { IsSome result ↔ IsBudget self.now.budget }
        ensures value { IfSome result (λ method. method ≡ record { rule = self.now.rule; bound = self.now.bound; strategy = record { weight = self.now.weight; expansion = self.now.expansion; budget = self.now.budget } }) }
    {
        Some(Method {
            rule: self.rule,
            bound: self.bound,
            strategy: Strategy {
                weight: self.weight,
                expansion: self.expansion,
                budget: Budget::new(self.budget)?.into(),
            },
        })
    }
}

/// How the best answer of a position is to be searched for.
#[derive(Clone, Copy)]
pub struct BestSearchWords {
    /// Which cards go home at once.
    pub rule: HomeRule,
    /// How many classes of positions may be stored, as it was told: it may be none, or more than a budget can be.
    pub budget: u32,
}

impl BestSearchWords {
    /// The method that is asked for: a shortest list is sought, by the clearing bound and partial expansion; `None` where the
    /// budget is outside 1 to 16,000,000.
    pub fn method(&self) -> Option<Method>
        ensures range { IsSome result ↔ IsGreatBudget self.now.budget }
        ensures value { IfSome result (λ method. method ≡ best_method self.now.rule self.now.budget) }
    {
        Some(Method::best(self.rule, GreatBudget::new(self.budget)?))
    }
}

/// How each deal of a batch is to be searched.
#[derive(Clone, Copy)]
pub enum BatchSearch {
    /// By these words, as `solve` does.
    By(SearchWords),
    /// For its best answer, as `best` does.
    Best(BestSearchWords),
}

/// The words of `deal`.
#[derive(Clone, Copy)]
pub struct DealWords {
    /// The number of the deal, which may be no deal's.
    pub number: u32,
}

/// The words of `show`.
#[derive(Clone, Copy)]
pub struct ShowWords<'a> {
    pub game: GameWords,
    pub board: BoardWords<'a>,
    /// Whether the board's text is printed, and no drawing.
    pub is_plain: bool,
    /// When red suits are drawn in red.
    pub colours: Colours,
}

/// The words of `best`.
#[derive(Clone, Copy)]
pub struct BestWords<'a> {
    pub game: GameWords,
    pub board: BoardWords<'a>,
    pub search: BestSearchWords,
    /// The file that takes the certificate, if one is asked for.
    pub cert: Option<&'a str>,
    /// How the moves are told.
    pub form: MovesForm,
    /// When red suits are in red, in words and in drawings.
    pub colours: Colours,
    /// Whether each better answer is written as it comes, and not only the last one.
    pub is_each: bool,
    /// Whether a link ends the answer.
    pub has_link: bool,
    /// Whether a line of numbers ends the searches.
    pub has_stats: bool,
    /// Whether nothing is said on a terminal but the answer.
    pub is_quiet: bool,
}

/// The words of `hint`.
#[derive(Clone, Copy)]
pub struct HintWords<'a> {
    pub game: GameWords,
    pub board: BoardWords<'a>,
    pub search: BestSearchWords,
    /// How many moves are told at most, from 1 on.
    pub count: u8,
    /// Whether the answer and its next moves are printed as a JSON object.
    pub is_json: bool,
    /// Whether a link ends the answer.
    pub has_link: bool,
    /// When red suits are in red.
    pub colours: Colours,
    /// Whether nothing is said on a terminal but the answer.
    pub is_quiet: bool,
}

/// The words of `solve`.
#[derive(Clone, Copy)]
pub struct SolveWords<'a> {
    pub game: GameWords,
    pub board: BoardWords<'a>,
    pub search: SearchWords,
    /// The file that takes the certificate, if one is asked for.
    pub cert: Option<&'a str>,
    /// How the moves are told.
    pub form: MovesForm,
    /// When red suits are in red, in words and in drawings.
    pub colours: Colours,
    /// Whether a link ends the answer.
    pub has_link: bool,
    /// Whether a line of numbers ends the search.
    pub has_stats: bool,
    /// Whether nothing is said of how far the search is.
    pub is_quiet: bool,
}

/// The words of `check`, of which the board and the certificate are not both from standard input.
#[derive(Clone, Copy)]
pub struct CheckWords<'a> {
    pub game: GameWords,
    pub board: BoardWords<'a>,
    /// The certificate.
    pub cert: FileWord<'a>,
    /// Whether what is proved, or why nothing is, is printed as a JSON object.
    pub is_json: bool,
}

/// The words of `replay`, of which the board and the moves are not both from standard input.
#[derive(Clone, Copy)]
pub struct ReplayWords<'a> {
    pub game: GameWords,
    pub board: BoardWords<'a>,
    pub moves: FileWord<'a>,
    /// What is printed.
    pub form: ReplayForm,
    /// Whether a link ends what is printed.
    pub has_link: bool,
    /// Whether entries of the list may move several cards.
    pub has_sequences: bool,
    /// Whether a list that doesn't win ends with a status of its own.
    pub must_win: bool,
}

/// Which boards a batch is of.
#[derive(Drop)]
pub enum BatchBoards<'a> {
    /// The numbered deals from the one number to the other, each as it was told: it may be no deal's, and the last one may be
    /// less than the first.
    Deals { from: u32, to: u32 },
    /// The boards of these files, of which `-` is standard input.
    Files(Vec<&'a str>),
}

/// Which lists of moves are reviewed.
#[derive(Drop)]
pub enum ReviewLists<'a> {
    /// One, of a board; the board and the moves are not both from standard input.
    One {
        board: BoardWords<'a>,
        moves: FileWord<'a>,
    },
    /// Those of these files, of which `-` is standard input: on each line a board and its moves.
    Files(Vec<&'a str>),
}

/// The words of `review`.
#[derive(Drop)]
pub struct ReviewWords<'a> {
    pub game: GameWords,
    pub lists: ReviewLists<'a>,
    pub text: TextWords,
    pub search: BestSearchWords,
    /// Whether an entry of a list may move several cards; else each moves one.
    pub has_sequences: bool,
    /// Whether each board of the list is answered.
    pub has_all: bool,
    /// Whether what is told of a list is printed as a JSON object.
    pub is_json: bool,
    /// Whether a link ends what is told.
    pub has_link: bool,
    /// The file that takes the certificate of a list that wins, if one is asked for.
    pub cert: Option<&'a str>,
    /// The folder that takes the boards before and after the move that loses, with a certificate each, if they are asked for.
    pub certs: Option<&'a str>,
}

/// How what is told of each board of a batch is printed.
#[derive(Clone, Copy)]
pub enum BatchForm {
    /// A line each; the searches take turns.
    Lines,
    /// A row each of a table, with numbers of each search; they go one after the other.
    Table,
    /// A JSON object each, on a line of its own; they go one after the other.
    Json,
}

/// The words of `batch`.
#[derive(Drop)]
pub struct BatchWords<'a> {
    pub game: GameWords,
    pub boards: BatchBoards<'a>,
    pub text: TextWords,
    pub search: BatchSearch,
    pub form: BatchForm,
    /// The folder that takes a certificate for each board, if they are asked for.
    pub certs: Option<&'a str>,
    /// Whether the table ends with how many boards have which answer.
    pub has_totals: bool,
}
