ghost use Rattle.std.specs.Prelude.{◌≡◌, Some, None, IfOk, string_bytes};
ghost use Rattle.serde_json.specs.Data.{object};
ghost use Rattle.serde_json.specs.Read.{read};
ghost use Rattle.serde_json.specs.View.{members_view};
ghost use Rattle.serde_json.specs.Written.{compact_text};
ghost use Rattle.fc_json.specs.Objects.{list_members};

use crate::objects::{put_count, put_number, put_text};
use serde_json::{Map, Value};
use std::alloc::{AllocError, Global};

/// What is told of a list of moves; what isn't there is left out.
#[derive(Clone, Copy)]
pub struct ToldList<'a> {
    /// The number of the deal, of a numbered one.
    pub deal: Option<u32>,
    /// What the board is called, of another one.
    pub board: Option<&'a str>,
    /// What became of the list.
    pub review: &'a str,
    /// The list by two letters a move, with the moves home that it leaves out.
    pub list: Option<&'a str>,
    /// How many moves it has.
    pub moves: Option<u64>,
    /// How many of these it leaves out.
    pub inserted: Option<u64>,
    /// How many entries of it are left to a player's hands.
    pub by_hand: Option<u64>,
    /// Behind how many moves of the list the board stands that `best` and `floor` tell of.
    pub after: Option<u64>,
    /// How many moves the shortest list has that is known to win from there.
    pub best: Option<u64>,
    /// How many moves each list has at least that wins from there.
    pub floor: Option<u64>,
    /// The move that loses, by its two letters.
    pub losing: Option<&'a str>,
    /// Behind how many moves of the list the first board stands of which it is known that no list wins.
    pub lost_after: Option<u64>,
}

impl<'a> ToldList<'a> {
    /// A review of this name, and nothing else.
    pub fn new(review: &'a str) -> Self
        ensures value { result ≡ record { deal = None; board = None; review = review.entry; list = None; moves = None; inserted = None; by_hand = None; after = None; best = None; floor = None; losing = None; lost_after = None } }
    {
        ToldList {
            deal: None,
            board: None,
            review,
            list: None,
            moves: None,
            inserted: None,
            by_hand: None,
            after: None,
            best: None,
            floor: None,
            losing: None,
            lost_after: None,
        }
    }
}

/// The object, a member for each thing that is told, in the order of their names, with nothing between its parts: one line, without
/// its end.
///
/// # Errors
/// A growth of memory was refused.
pub fn review_object_text(alloc: Global, told: &ToldList<'_>) -> Result<String, AllocError>
    ensures text { IfOk result (λ s. string_bytes s ≡ compact_text (object (list_members told.now))) }
    ensures reads { IfOk result (λ s. read (string_bytes s) ≡ Some (object (list_members told.now))) }
{
    let members = list_members(alloc, told)?;
    Value::Object(members).to_string(alloc)
}

// A member for each thing that is told.
fn list_members(alloc: Global, told: &ToldList<'_>) -> Result<Map<String, Value>, AllocError>
    ensures members { IfOk result (λ map. members_view map.entries ≡ list_members told.now) }
{
    let mut map = Map::new(alloc);
    put_text(alloc, &mut map, "review", Some(told.review))?;
    put_number(alloc, &mut map, "moves", told.moves)?;
    put_number(alloc, &mut map, "lost_after", told.lost_after)?;
    put_text(alloc, &mut map, "losing", told.losing)?;
    put_text(alloc, &mut map, "list", told.list)?;
    put_number(alloc, &mut map, "inserted", told.inserted)?;
    put_number(alloc, &mut map, "floor", told.floor)?;
    put_count(alloc, &mut map, "deal", told.deal)?;
    put_number(alloc, &mut map, "by_hand", told.by_hand)?;
    put_text(alloc, &mut map, "board", told.board)?;
    put_number(alloc, &mut map, "best", told.best)?;
    put_number(alloc, &mut map, "after", told.after)?;
    Ok(map)
}
