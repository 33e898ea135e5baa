//! The text of an expression.

ghost use Rattle.std.specs.Prelude.{◌≡◌, ◌++◌, OnOk, codes};
ghost use Rattle.std.specs.String.{string_bytes};
ghost use Rattle.roc_lang.specs.Tree.{expression_tree};
ghost use Rattle.roc_lang_print.specs.Canonical.{is_sum, is_product, enclosed, expression_text};

use roc_lang::Expression;
use std::alloc::AllocError;

/// Whether an expression is a `+` or a `-`.
fn is_sum(expression: &Expression) -> bool
    ensures { result ≡ is_sum (expression_tree expression.now) }
{
    match expression {
        Expression::Sum(_, _) | Expression::Difference(_, _) => true,
        Expression::Number(_)
        | Expression::Variable(_)
        | Expression::Product(_, _)
        | Expression::Minimum(_, _)
        | Expression::Maximum(_, _)
        | Expression::Less(_, _)
        | Expression::Pick(_, _, _) => false,
    }
}

/// Whether an expression is a `*`.
fn is_product(expression: &Expression) -> bool
    ensures { result ≡ is_product (expression_tree expression.now) }
{
    match expression {
        Expression::Product(_, _) => true,
        Expression::Number(_)
        | Expression::Variable(_)
        | Expression::Sum(_, _)
        | Expression::Difference(_, _)
        | Expression::Minimum(_, _)
        | Expression::Maximum(_, _)
        | Expression::Less(_, _)
        | Expression::Pick(_, _, _) => false,
    }
}

/// Adds an operand, in parentheses where they are needed.
#[cycle(text)]
fn push_operand(text: &mut String, needed: bool, operand: &Expression) -> Result<(), AllocError>
    ensures { OnOk result (string_bytes text.new ≡ string_bytes text.old ++ enclosed needed (expression_text (expression_tree operand.now))) }
{
    if needed {
        text.push_str("(")?;
        push_expression(text, operand)?;
        text.push_str(")")
    } else {
        push_expression(text, operand)
    }
}

/// Adds the last argument of a function, and what stands round it.
#[cycle(text)]
fn push_last(text: &mut String, argument: &Expression) -> Result<(), AllocError>
    ensures { OnOk result (string_bytes text.new ≡ string_bytes text.old ++ codes "," ++ expression_text (expression_tree argument.now) ++ codes ")") }
{
    text.push_str(",")?;
    push_expression(text, argument)?;
    text.push_str(")")
}

/// Adds an expression.
#[cycle(text)]
pub(crate) fn push_expression(text: &mut String, expression: &Expression) -> Result<(), AllocError>
    ensures { OnOk result (string_bytes text.new ≡ string_bytes text.old ++ expression_text (expression_tree expression.now)) }
{
    match expression {
        Expression::Number(value) => write!(text, "{value}"),
        Expression::Variable(name) => text.push_str(&name.text),
        Expression::Sum(first, second) => {
            push_expression(text, first)?;
            text.push_str(" + ")?;
            push_operand(text, is_sum(second), second)
        }
        Expression::Difference(first, second) => {
            push_expression(text, first)?;
            text.push_str(" - ")?;
            push_operand(text, is_sum(second), second)
        }
        Expression::Product(first, second) => {
            push_operand(text, is_sum(first), first)?;
            text.push_str(" * ")?;
            push_operand(text, is_sum(second) || is_product(second), second)
        }
        Expression::Minimum(first, second) => {
            text.push_str("min(")?;
            push_expression(text, first)?;
            push_last(text, second)
        }
        Expression::Maximum(first, second) => {
            text.push_str("max(")?;
            push_expression(text, first)?;
            push_last(text, second)
        }
        Expression::Less(first, second) => {
            text.push_str("less(")?;
            push_expression(text, first)?;
            push_last(text, second)
        }
        Expression::Pick(chooser, first, second) => {
            text.push_str("pick(")?;
            push_expression(text, chooser)?;
            text.push_str(",")?;
            push_expression(text, first)?;
            push_last(text, second)
        }
    }
}
