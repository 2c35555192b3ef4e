//! The numbers of the rules, as the table "Rules" of docs/LOGIC.md has them. Number 11 is that of
//! the rule that no node fails.

pub const HYP: u8 = 1;

pub const THM: u8 = 2;

pub const ANDI: u8 = 3;

pub const ANDL: u8 = 4;

pub const ANDR: u8 = 5;

pub const ORL: u8 = 6;

pub const ORR: u8 = 7;

pub const ORE: u8 = 8;

pub const IMPI: u8 = 9;

pub const IMPE: u8 = 10;

pub const LEM: u8 = 12;

pub const ALLI: u8 = 13;

pub const ALLE: u8 = 14;

pub const EXI: u8 = 15;

pub const EXE: u8 = 16;

pub const REFL: u8 = 17;

pub const REPL: u8 = 18;

pub const IND: u8 = 19;

pub const PREDI: u8 = 20;

pub const PREDE: u8 = 21;
