// Rosters and their players.
ghost use Rattle.std.specs.Prelude.{◌≡◌, ◌≤◌, IfOk, List, Some, None, [], ◌∷◌, length, map, option_map, string_bytes};
ghost use Rattle.std.specs.Char.{is_ascii_graphic};
ghost use Rattle.std.specs.List.{list_all, list_any};
ghost use Rattle.std.specs.Str.{IsUtf8};
ghost use Rattle.csv.specs.Records.{fields_of};
ghost use Rattle.pg_roster.specs.Roster.{Reads, ReadsRow, ReadsRows, has_length, has_name, has_pass, is_header, is_name, is_name_byte, is_pass, member, member_with, two_of};

use crate::fault::RosterFault;
use crate::records::all_records;
use csv::ByteRecord;
use std::alloc::{AllocError, Global};
use std::marker::Model;
use std::str;

// How many bytes a roster has at most, and how many players.
const MOST_BYTES: usize = 65_536;

const MOST_PLAYERS: usize = 256;

/// A player, and the pass by which the server knows them.
#[derive(Debug, Drop, PartialEq)]
pub struct Player {
    /// 1 to 32 letters, digits, `-` or `_` of ASCII.
    pub name: String,
    /// 1 to 64 bytes from 0x21 to 0x7E.
    pub pass: String,
}

/// The players of a class, at least one and at most 256. No two have one name or one pass.
#[derive(Debug, Drop)]
pub struct Roster {
    players: Vec<Player>,
}

impl Model for Roster {
    ghost use Rattle.std.specs.Prelude.{List, map};
    ghost use Rattle.pg_roster.specs.Roster.{Member, member};

    ghost Value = { List Member };

    ghost view = { λ r. map member r.players.items };
}

impl Roster {
    /// The players, in the order of the roster's rows.
    pub fn players(&self) -> &[Player]
        ensures { map member result.now ≡ self.now }
    {
        &self.players
    }

    /// The player with this pass, if one has it.
    pub fn player_with(&self, pass: &str) -> Option<&Player>
        ensures { option_map (λ player. member player.now) result ≡ member_with pass.now self.now }
    {
        for player in &self.players {
            if player.pass.as_str() == pass {
                return Some(player);
            }
        }
        None
    }
}

/// Reads a roster: a file of at most 65,536 bytes whose records, as `csv` reads them, are
/// `player,pass` and then a row for each player, 1 to 256 of them.
pub fn read_roster(alloc: Global, bytes: &[u8]) -> Result<Roster, RosterFault>
    ensures { Reads bytes.now result }
{
    if bytes.len() > MOST_BYTES {
        return Err(RosterFault::TooLong);
    }
    let records = all_records(alloc, bytes)?;
    let Some((header, rows)) = records.split_first() else {
        return Err(RosterFault::Header);
    };
    if !begins_roster(header) {
        return Err(RosterFault::Header);
    }
    if rows.is_empty() {
        return Err(RosterFault::Empty);
    }
    read_rows(alloc, rows)
}

/// Whether this record is the header of a roster.
fn begins_roster(row: &ByteRecord) -> bool
    ensures { result ≡ is_header (fields_of row.now) }
{
    match two_fields(row) {
        Some((name, pass)) => name == b"player".as_slice() && pass == b"pass".as_slice(),
        None => false,
    }
}

/// The fields of a record that has two.
fn two_fields(row: &ByteRecord) -> Option<(&[u8], &[u8])>
    ensures { option_map (λ pair. pair.0.now ∷ pair.1.now ∷ []) result ≡ two_of (fields_of row.now) }
{
    if row.len() != 2 {
        return None;
    }
    Some((row.get(0)?, row.get(1)?))
}

/// The players of these rows.
fn read_rows(alloc: Global, rows: &[ByteRecord]) -> Result<Roster, RosterFault>
    ensures { ReadsRows (map fields_of rows.now) result }
{
    let mut players = Vec::new(alloc);
    for row in rows {
        let player = read_row(alloc, row, &players)?;
        players.push(player)?;
    }
    Ok(Roster { players })
}

/// The player of a row behind those of these players.
fn read_row(alloc: Global, row: &ByteRecord, before: &[Player]) -> Result<Player, RosterFault>
    requires { length before.now ≤ 256 }
    ensures { ReadsRow (map member before.now) (fields_of row.now) result }
{
    let number = before.len() as u32 + 1;
    let Some((name, pass)) = two_fields(row) else {
        return Err(RosterFault::Width { row: number });
    };
    if !is_player_name(name) {
        return Err(RosterFault::Player { row: number });
    }
    if !is_player_pass(pass) {
        return Err(RosterFault::Pass { row: number });
    }
    if is_named(before, name) {
        return Err(RosterFault::PlayerTwice { row: number });
    }
    if is_passed(before, pass) {
        return Err(RosterFault::PassTwice { row: number });
    }
    if before.len() == MOST_PLAYERS {
        return Err(RosterFault::TooMany { row: number });
    }
    Ok(Player {
        name: text_of(alloc, name)?,
        pass: text_of(alloc, pass)?,
    })
}

/// Whether a player may have this name.
fn is_player_name(text: &[u8]) -> bool
    ensures { result ≡ is_name text.now }
{
    is_short(text, 32) && has_bytes_of_name(text)
}

/// Whether each byte may stand in a player's name.
fn has_bytes_of_name(text: &[u8]) -> bool
    ensures { result ≡ list_all is_name_byte text.now }
{
    text.iter().all(|b| is_byte_of_name(*b))
}

/// Whether a byte may stand in a player's name.
fn is_byte_of_name(b: u8) -> bool
    ensures { result ≡ is_name_byte b }
{
    b.is_ascii_alphanumeric() || b == b'-' || b == b'_'
}

/// Whether a player may have this pass.
fn is_player_pass(text: &[u8]) -> bool
    ensures { result ≡ is_pass text.now }
{
    is_short(text, 64) && is_graphic(text)
}

/// Whether each byte is from 0x21 to 0x7E.
fn is_graphic(text: &[u8]) -> bool
    ensures { result ≡ list_all is_ascii_graphic text.now }
{
    text.iter().all(|b| b.is_ascii_graphic())
}

/// Whether a text has 1 to `most` bytes.
fn is_short(text: &[u8], most: usize) -> bool
    ensures { result ≡ has_length most text.now }
{
    !text.is_empty() && text.len() <= most
}

/// Whether one of these players has this name.
fn is_named(players: &[Player], name: &[u8]) -> bool
    ensures { result ≡ list_any (has_name name.now) (map member players.now) }
{
    for player in players {
        if player.name.as_bytes() == name {
            return true;
        }
    }
    false
}

/// Whether one of these players has this pass.
fn is_passed(players: &[Player], pass: &[u8]) -> bool
    ensures { result ≡ list_any (has_pass pass.now) (map member players.now) }
{
    for player in players {
        if player.pass.as_bytes() == pass {
            return true;
        }
    }
    false
}

/// A text of these bytes, which are UTF-8, so that the first error never comes.
fn text_of(alloc: Global, bytes: &[u8]) -> Result<String, AllocError>
    requires { IsUtf8 bytes.now }
    ensures { IfOk result (λ text. string_bytes text ≡ bytes.now) }
{
    let Ok(text) = str::from_utf8(bytes) else {
        return Err(AllocError);
    };
    String::from_str(alloc, text)
}
