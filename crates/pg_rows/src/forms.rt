// Moves as they are printed: the word, and what stands behind it.
use pg_base::Token;
use pg_script::{Expr, Form, MoveItem, Piece, RwRule};
use std::alloc::{AllocError, Global};

/// How many tokens of a piece are printed.
const SHOWN: usize = 12;

/// The line of a move, behind so many blanks: the byte of its word, the word, and what stands behind it.
pub fn move_line(alloc: Global, indent: &str, step: &MoveItem<'_>) -> Result<String, AllocError> {
    let (at, head) = (step.at, step.head);
    let mut line = format!(in alloc; "{indent}{at}: {head}")?;
    push_form(&mut line, &step.form)?;
    Ok(line)
}

fn push_form(line: &mut String, form: &Form<'_>) -> Result<(), AllocError> {
    match form {
        Form::Plain => Ok(()),
        Form::Exact(expr) => push_expr(line, expr),
        Form::Intro(names) => push_names(line, names.as_slice()),
        Form::Apply { expr, place } => {
            push_expr(line, expr)?;
            push_place(line, place)
        }
        Form::Rw { rules, place } => {
            push_rules(line, rules.as_slice())?;
            push_place(line, place)
        }
        Form::Split { name, names } => push_split(line, name, names.as_slice()),
        Form::Use(terms) => push_terms(line, terms.as_slice()),
        Form::Symm(place) => push_place(line, place),
        Form::Have {
            name,
            formula,
            expr,
        } => {
            push_name(line, name)?;
            push_formula(line, formula)?;
            push_value(line, expr)
        }
        Form::Revert(name) => push_name(line, name),
        Form::ByCases { name, formula } => {
            push_name(line, name)?;
            line.push_str(" :")?;
            push_piece(line, formula)
        }
        Form::Unknown => line.push_str(" .."),
    }
}

fn push_name(line: &mut String, name: &Token<'_>) -> Result<(), AllocError> {
    let text = name.text;
    write!(line, " {text}")
}

fn push_names(line: &mut String, names: &[Token<'_>]) -> Result<(), AllocError> {
    for name in names {
        push_name(line, name)?;
    }
    Ok(())
}

/// The name at which a move works, if it has one.
fn push_place(line: &mut String, place: &Option<Token<'_>>) -> Result<(), AllocError> {
    match place {
        None => Ok(()),
        Some(name) => {
            line.push_str(" at")?;
            push_name(line, name)
        }
    }
}

fn push_split(line: &mut String, name: &Token<'_>, names: &[Token<'_>]) -> Result<(), AllocError> {
    push_name(line, name)?;
    if names.is_empty() {
        return Ok(());
    }
    line.push_str(" with")?;
    push_names(line, names)
}

/// An expression: its name, and each argument as a piece.
fn push_expr(line: &mut String, expr: &Expr<'_>) -> Result<(), AllocError> {
    push_name(line, &expr.name)?;
    for arg in expr.args.as_slice() {
        push_piece(line, arg)?;
    }
    Ok(())
}

fn push_rules(line: &mut String, rules: &[RwRule<'_>]) -> Result<(), AllocError> {
    let mut sign = " [";
    for rule in rules {
        line.push_str(sign)?;
        if rule.back {
            line.push_str(" ←")?;
        }
        push_expr(line, &rule.expr)?;
        sign = ",";
    }
    line.push_str(" ]")
}

fn push_terms(line: &mut String, terms: &[Piece<'_>]) -> Result<(), AllocError> {
    let mut sign = "";
    for term in terms {
        line.push_str(sign)?;
        push_piece(line, term)?;
        sign = ",";
    }
    Ok(())
}

/// The formula of `have`, if it has one.
fn push_formula(line: &mut String, formula: &Option<Piece<'_>>) -> Result<(), AllocError> {
    match formula {
        None => Ok(()),
        Some(formula) => {
            line.push_str(" :")?;
            push_piece(line, formula)
        }
    }
}

/// The expression of `have`, if it has one.
fn push_value(line: &mut String, expr: &Option<Expr<'_>>) -> Result<(), AllocError> {
    match expr {
        None => Ok(()),
        Some(expr) => {
            line.push_str(" :=")?;
            push_expr(line, expr)
        }
    }
}

/// A piece: how many tokens it has, where it ends, and its first tokens.
fn push_piece(line: &mut String, piece: &Piece<'_>) -> Result<(), AllocError> {
    let (count, end) = (piece.tokens.len(), piece.end);
    write!(line, " ⟨{count} to {end}:")?;
    for token in piece.tokens.as_slice().iter().take(SHOWN) {
        push_name(line, token)?;
    }
    if count > SHOWN {
        line.push_str(" ..")?;
    }
    line.push_str("⟩")
}
