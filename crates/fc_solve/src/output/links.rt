//! Links to the page that shows a board with a list of moves and plays it.
ghost use Rattle.fc_position.specs.Position.{Fits};

use crate::output::answer_forms::tell_whole;
use crate::output::endings::Ending;
use crate::output::found_answers::Answered;
use fc_moves::Game;
use fc_position::Position;
use fc_text::print_board;
use fc_words::{GameName, GameWords};
use std::alloc::{AllocError, Global};
use std::env;

/// What a link shows beside the board.
#[derive(Clone, Copy)]
pub struct PageLink<'a> {
    pub game: GameWords,
    /// The number of the deal, where the board is one.
    pub deal: Option<u32>,
    /// The moves, by two letters each.
    pub list: &'a [u8],
    /// How many moves each list that wins has at least.
    pub floor: Option<u32>,
    /// What the answer is called, where it has no list.
    pub answer: Option<&'a str>,
}

impl<'a> PageLink<'a> {
    /// A link to an answer.
    pub fn of_answer(game: GameWords, deal: Option<u32>, answered: &'a Answered) -> PageLink<'a> {
        let answer = match answered.count() {
            Some(_) => None,
            None => Some(answered.name()),
        };
        PageLink {
            game,
            deal,
            list: answered.letters(),
            floor: answered.floor(),
            answer,
        }
    }
}

// The variable that names the page's file, which the launcher sets.
const PAGE: &str = "FC_SOLVE_PAGE";

/// Writes the link, on a line.
pub fn tell_link<G: Game>(
    rt: &HostRuntime,
    game: &G,
    start: &Position,
    link: &PageLink<'_>,
) -> Result<(), Ending>
    requires fits { Fits (G.game game.now).cells start.now }
{
    let board = print_board(start, game.cells());
    let page = match env::var(rt, PAGE) {
        Ok(page) => page,
        Err(_) => String::from_str(rt.alloc(), "/page/index.html")?,
    };
    let text = link_text(rt.alloc(), page.as_str(), board.as_bytes(), link)?;
    tell_whole(rt, text.as_slice())
}

// The link to a page.
fn link_text(
    alloc: Global,
    page: &str,
    board: &[u8],
    link: &PageLink<'_>,
) -> Result<Vec<u8>, AllocError> {
    let mut text = Vec::from_slice(alloc, b"file://")?;
    push_coded(&mut text, page.as_bytes(), b"%20")?;
    match link.deal {
        Some(number) => {
            let deal = format!(in alloc; "#deal={number}")?;
            text.extend_from_slice(deal.as_bytes())?;
        }
        None => {
            text.extend_from_slice(b"#board=")?;
            push_coded(&mut text, board, b"+")?;
        }
    }
    push_game(alloc, &mut text, link.game)?;
    if !link.list.is_empty() {
        text.extend_from_slice(b"&list=")?;
        push_coded(&mut text, link.list.trim_ascii_end(), b"+")?;
    }
    if let Some(floor) = link.floor {
        let floor = format!(in alloc; "&floor={floor}")?;
        text.extend_from_slice(floor.as_bytes())?;
    }
    if let Some(answer) = link.answer {
        text.extend_from_slice(b"&answer=")?;
        push_coded(&mut text, answer.as_bytes(), b"+")?;
    }
    text.push(b'\n')?;
    Ok(text)
}

// Appends what is said of a game that isn't FreeCell with four cells.
fn push_game(alloc: Global, text: &mut Vec<u8>, game: GameWords) -> Result<(), AllocError> {
    if let GameName::Bakers = game.game {
        text.extend_from_slice(b"&game=bakers")?;
    }
    if game.kings {
        text.extend_from_slice(b"&kings=1")?;
    }
    if game.cells != 4 {
        let cells = game.cells;
        let said = format!(in alloc; "&cells={cells}")?;
        text.extend_from_slice(said.as_bytes())?;
    }
    Ok(())
}

// Appends a text as links have it: letters, digits and a few signs as they are, a blank as this, and others by two digits.
fn push_coded(text: &mut Vec<u8>, bytes: &[u8], blank: &[u8]) -> Result<(), AllocError> {
    for byte in bytes {
        match *byte {
            b' ' => text.extend_from_slice(blank)?,
            b'0'..=b'9' | b'A'..=b'Z' | b'a'..=b'z' | b'-' | b'.' | b'_' | b'/' | b':' => {
                text.push(*byte)?
            }
            other => {
                text.push(b'%')?;
                text.push(hex_digit(other >> 4))?;
                text.push(hex_digit(other & 15))?;
            }
        }
    }
    Ok(())
}

// A digit of sixteen.
fn hex_digit(value: u8) -> u8 {
    match value {
        0..=9 => b'0'.saturating_add(value),
        _ => b'A'.saturating_add(value.saturating_sub(10)),
    }
}
