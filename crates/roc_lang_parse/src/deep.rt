//! Expressions with their depths, and what operators and functions make of them.

ghost use Rattle.std.specs.Prelude.{◌≡◌, ◌<◌, ◌+◌, max, IfOk};
ghost use Rattle.roc_lang.specs.Grammar.{standard};
ghost use Rattle.roc_lang.specs.Syntax.{Pick};
ghost use Rattle.roc_lang.specs.Tree.{expression_tree};
ghost use Rattle.roc_lang_parse.specs.Inner.Views.{deep_view, function_word, function_of};
ghost use Rattle.roc_lang_parse.specs.Reading.{times, plus_or_minus};

use roc_lang::Expression;
use std::alloc::{AllocError, Global};

/// An expression and its depth.
#[derive(Drop)]
pub(crate) struct Deep {
    pub expression: Expression,
    pub depth: u32,
}

/// A function of two operands.
#[derive(Clone, Copy, Drop)]
pub(crate) enum Function {
    Minimum,
    Maximum,
    Less,
}

pub(crate) fn word_of(function: Function) -> &'static str
    ensures { result.now ≡ function_word function }
{
    match function {
        Function::Minimum => "min",
        Function::Maximum => "max",
        Function::Less => "less",
    }
}

/// An expression in parentheses.
pub(crate) fn enclosed(inner: Deep) -> Deep
    requires { inner.depth < standard.depth }
    ensures { deep_view result ≡ (expression_tree inner.expression, inner.depth + 1) }
{
    let Deep { expression, depth } = inner;
    let depth = depth + 1;
    Deep { expression, depth }
}

/// Two operands, and the greater of their depths.
#[derive(Drop)]
pub(crate) struct Operands {
    pub first: Expression,
    pub second: Expression,
    pub depth: u32,
}

pub(crate) fn paired(first: Deep, second: Deep) -> Operands
    ensures { (expression_tree result.first ≡ expression_tree first.expression) × (expression_tree result.second ≡ expression_tree second.expression)
        × (result.depth ≡ max first.depth second.depth) }
{
    let depth = first.depth.max(second.depth);
    Operands {
        first: first.expression,
        second: second.expression,
        depth,
    }
}

/// A function of two operands, which is deeper than they are.
pub(crate) fn applied(
    alloc: Global,
    function: Function,
    operands: Operands,
) -> Result<Deep, AllocError>
    requires { operands.depth < standard.depth }
    ensures { IfOk result (λ d. deep_view d ≡ (function_of function (expression_tree operands.first) (expression_tree operands.second), operands.depth + 1)) }
{
    let depth = operands.depth + 1;
    let first = Box::new(alloc, operands.first)?;
    let second = Box::new(alloc, operands.second)?;
    let expression = match function {
        Function::Minimum => Expression::Minimum(first, second),
        Function::Maximum => Expression::Maximum(first, second),
        Function::Less => Expression::Less(first, second),
    };
    Ok(Deep { expression, depth })
}

/// `pick` of three operands.
pub(crate) fn picked(
    alloc: Global,
    chooser: Deep,
    first: Deep,
    second: Deep,
) -> Result<Deep, AllocError>
    requires { (chooser.depth < standard.depth) × (first.depth < standard.depth) × (second.depth < standard.depth) }
    ensures { IfOk result (λ d. deep_view d
        ≡ (Pick (expression_tree chooser.expression) (expression_tree first.expression) (expression_tree second.expression), max chooser.depth (max first.depth second.depth) + 1)) }
{
    let depth = chooser.depth.max(first.depth.max(second.depth)) + 1;
    let chooser = Box::new(alloc, chooser.expression)?;
    let first = Box::new(alloc, first.expression)?;
    let second = Box::new(alloc, second.expression)?;
    let expression = Expression::Pick(chooser, first, second);
    Ok(Deep { expression, depth })
}

/// The product of two expressions.
pub(crate) fn times(alloc: Global, first: Deep, second: Deep) -> Result<Deep, AllocError>
    requires first { first.depth < standard.depth }
    requires second { second.depth < standard.depth }
    ensures { IfOk result (λ d. deep_view d ≡ times (deep_view first) (deep_view second)) }
{
    let depth = first.depth.max(second.depth) + 1;
    let first = Box::new(alloc, first.expression)?;
    let second = Box::new(alloc, second.expression)?;
    let expression = Expression::Product(first, second);
    Ok(Deep { expression, depth })
}

/// The sum or the difference of two expressions.
pub(crate) fn plus_or_minus(
    alloc: Global,
    first: Deep,
    is_sum: bool,
    second: Deep,
) -> Result<Deep, AllocError>
    requires first { first.depth < standard.depth }
    requires second { second.depth < standard.depth }
    ensures { IfOk result (λ d. deep_view d ≡ plus_or_minus (deep_view first) (is_sum, deep_view second)) }
{
    let depth = first.depth.max(second.depth) + 1;
    let first = Box::new(alloc, first.expression)?;
    let second = Box::new(alloc, second.expression)?;
    let expression = if is_sum {
        Expression::Sum(first, second)
    } else {
        Expression::Difference(first, second)
    };
    Ok(Deep { expression, depth })
}
