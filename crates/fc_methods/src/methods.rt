ghost use Rattle.std.specs.Prelude.{◌≡◌};
ghost use Rattle.fc_methods.specs.Method.{as_written, best_method, shortest_asked};

use fc_best_first::{Budget, Expansion, GreatBudget, Strategy, Weight};
use fc_bound::BoundKind;
use fc_home::HomeRule;
use fc_moves::Game;
use std::marker::Model;

/// How a position is searched.
#[derive(Clone, Copy, Debug, PartialEq, Eq)]
pub struct Method {
    /// Which cards are sent home at once.
    pub rule: HomeRule,
    /// The kind of bound that the search goes by.
    pub bound: BoundKind,
    /// How many times as much as a cost a bound counts: what is won has at most so many times the fewest moves, by one a
    /// shortest list. Which children of a class are stored with it. How many classes may be stored.
    pub strategy: Strategy,
}

impl Method {
    /// A search for a shortest list by the plain bound and full expansion, under a home rule and within a budget.
    pub fn shortest(rule: HomeRule, budget: Budget) -> Method
        ensures value { result ≡ as_written rule budget }
    {
        Method {
            rule,
            bound: BoundKind::Plain,
            strategy: Strategy::full(Weight::ONE, budget.into()),
        }
    }

    /// The search for the best answer of a position, by the clearing bound and partial expansion, under a home rule and within a budget.
    pub fn best(rule: HomeRule, budget: GreatBudget) -> Method
        ensures value { result ≡ best_method rule budget }
    {
        Method {
            rule,
            bound: BoundKind::Clearing,
            strategy: Strategy {
                weight: Weight::ONE,
                expansion: Expansion::Partial,
                budget,
            },
        }
    }
}

/// What is sought of a position: what one search by the method answers, or the best answer that several searches give which store
/// no more classes than its budget, all told.
#[derive(Clone, Copy, Debug, PartialEq, Eq)]
pub enum Sought {
    ByMethod,
    Best,
}

/// How few moves of a game win, what is sought of that, and how: a position makes it a search.
#[derive(Drop)]
pub struct Question<G: Game + Drop> {
    game: G,
    sought: Sought,
    method: Method,
}

impl<G: Game + Drop> Model for Question<G> {
    ghost use Rattle.fc_methods.specs.Method.{QuestionData};

    ghost Value = { QuestionData };

    ghost view = { λ s. record { game = G.game s.game; sought = s.sought; method = s.method } };
}

impl<G: Game + Drop> Question<G> {
    /// The question of a game of which this is sought, by this method.
    pub fn new(game: &G, sought: Sought, method: Method) -> Self
        ensures game { result.game ≡ G.game game.now }
        ensures sought { result.sought ≡ sought }
        ensures method { result.method ≡ method }
    {
        Question {
            game: game.copy(),
            sought,
            method,
        }
    }

    /// The question of a shortest list of a game, to be searched by the plain bound under a home rule and within a budget.
    pub fn shortest(game: &G, rule: HomeRule, budget: Budget) -> Self
        ensures value { result ≡ shortest_asked (G.game game.now) rule budget }
    {
        Question {
            game: game.copy(),
            sought: Sought::ByMethod,
            method: Method::shortest(rule, budget),
        }
    }

    /// The game.
    pub fn game(&self) -> &G
        ensures value { G.game result.now ≡ self.now.game }
    {
        &self.game
    }

    /// What is sought.
    pub fn sought(&self) -> Sought
        ensures value { result ≡ self.now.sought }
    {
        self.sought
    }

    /// How it is searched.
    pub fn method(&self) -> Method
        ensures value { result ≡ self.now.method }
    {
        self.method
    }
}
