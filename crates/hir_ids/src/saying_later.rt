//! What the nodes of kinds that inference does not carry yet name beside their parts.
ghost use Rattle.std.specs.Prelude.{◌≡◌, ◌++◌, flat_map, OnOk};
ghost use Rattle.hir_ids.specs.Words.hir_raw.Mentions.{maybe, arg_mentions, written_args, maybe_args, later_path_mentions, variant_path_mentions, param_mentions, later_mentions, later_pat_mentions};
ghost use Rattle.hir_ids.specs.Words.hir_raw.declared.mention.Mention.TheVariants.{Label as label_mention};
ghost use Rattle.hir_ids.specs.Words.hir_raw.declared.mention.LabelRole.TheVariants.{Left as left_role};
ghost use Rattle.hir_ids.specs.Words.{said};

use crate::saying::{say, say_label, say_list, say_stmts, say_type};
use hir_raw::{
    LabelRole, LaterExpr, LaterPat, LaterPath, Mention, RawArg, RawClosureParam, RawVariantPath,
    Said,
};
use hir_types::{LabelId, List};
use std::alloc::AllocError;

fn say_left(out: &mut Vec<Said>, node: usize, label: &Option<LabelId>) -> Result<(), AllocError>
    ensures { OnOk result (out.new.items ≡ out.old.items ++ said node (maybe (label_mention left_role) label.now)) }
{
    match label {
        None => Ok(()),
        Some(label) => say(out, node, Mention::Label(LabelRole::Left, *label)),
    }
}

fn say_arg(out: &mut Vec<Said>, node: usize, arg: &RawArg) -> Result<(), AllocError>
    ensures { OnOk result (out.new.items ≡ out.old.items ++ said node (arg_mentions arg.now)) }
{
    match arg {
        RawArg::Type(written) => say(out, node, Mention::Type(*written)),
        RawArg::Const(written) => say(out, node, Mention::Const(*written)),
    }
}

fn say_entries(out: &mut Vec<Said>, node: usize, args: &[RawArg]) -> Result<(), AllocError>
    ensures { OnOk result (out.new.items ≡ out.old.items ++ said node (flat_map arg_mentions args.now)) }
{
    for arg in args {
        say_arg(out, node, arg)?;
    }
    Ok(())
}

fn say_args(out: &mut Vec<Said>, node: usize, args: &[RawArg]) -> Result<(), AllocError>
    ensures { OnOk result (out.new.items ≡ out.old.items ++ said node (written_args args.now)) }
{
    say_list(out, node, args.len())?;
    say_entries(out, node, args)
}

fn say_maybe_args(
    out: &mut Vec<Said>,
    node: usize,
    args: &Option<List<RawArg>>,
) -> Result<(), AllocError>
    ensures { OnOk result (out.new.items ≡ out.old.items ++ said node (maybe_args args.now)) }
{
    match args {
        None => Ok(()),
        Some(args) => say_args(out, node, args.as_slice()),
    }
}

/// What a path names, and what stands in its lists of arguments.
fn say_path(out: &mut Vec<Said>, node: usize, path: &LaterPath) -> Result<(), AllocError>
    ensures { OnOk result (out.new.items ≡ out.old.items ++ said node (later_path_mentions path.now)) }
{
    match path {
        LaterPath::Local(local, args) => {
            say(out, node, Mention::Local(*local))?;
            say_args(out, node, args.as_slice())
        }
        LaterPath::Function(function, args) => {
            say(out, node, Mention::Function(*function))?;
            say_args(out, node, args.as_slice())
        }
        LaterPath::Ctor(variant, args) => {
            say(out, node, Mention::Variant(*variant))?;
            say_args(out, node, args.as_slice())
        }
        LaterPath::Const(item, args) => {
            say(out, node, Mention::ConstItem(*item))?;
            say_maybe_args(out, node, args)
        }
        LaterPath::Static(item, args) => {
            say(out, node, Mention::Static(*item))?;
            say_maybe_args(out, node, args)
        }
        LaterPath::Typed { ty, name: _, args } => {
            say(out, node, Mention::Type(*ty))?;
            say_maybe_args(out, node, args)
        }
        LaterPath::Trait {
            trait_,
            trait_args,
            name: _,
            args,
        } => {
            say(out, node, Mention::Trait(*trait_))?;
            say_maybe_args(out, node, trait_args)?;
            say_maybe_args(out, node, args)
        }
        LaterPath::SelfCtor(item, args) => {
            say(out, node, Mention::SelfOf(*item))?;
            say_maybe_args(out, node, args)
        }
        LaterPath::ConstParam(number, args) => {
            say(out, node, Mention::ConstParam(*number))?;
            say_maybe_args(out, node, args)
        }
        LaterPath::Unresolved { is_ident: _ } => Ok(()),
    }
}

fn say_variant_path(
    out: &mut Vec<Said>,
    node: usize,
    path: &RawVariantPath,
) -> Result<(), AllocError>
    ensures { OnOk result (out.new.items ≡ out.old.items ++ said node (variant_path_mentions path.now)) }
{
    match path {
        RawVariantPath::Variant(variant, args) => {
            say(out, node, Mention::Variant(*variant))?;
            say_maybe_args(out, node, args)
        }
        RawVariantPath::Type(written) => say(out, node, Mention::Type(*written)),
        RawVariantPath::Typed(written, _) => say(out, node, Mention::Type(*written)),
        RawVariantPath::Unresolved => Ok(()),
    }
}

fn say_param(out: &mut Vec<Said>, node: usize, param: &RawClosureParam) -> Result<(), AllocError>
    ensures { OnOk result (out.new.items ≡ out.old.items ++ said node (param_mentions param.now)) }
{
    say_type(out, node, &param.type_ref)
}

fn say_params(
    out: &mut Vec<Said>,
    node: usize,
    params: &[RawClosureParam],
) -> Result<(), AllocError>
    ensures { OnOk result (out.new.items ≡ out.old.items ++ said node (flat_map param_mentions params.now)) }
{
    for param in params {
        say_param(out, node, param)?;
    }
    Ok(())
}

/// What an expression names, and how long its lists are.
pub fn say_later(out: &mut Vec<Said>, node: usize, expr: &LaterExpr) -> Result<(), AllocError>
    ensures { OnOk result (out.new.items ≡ out.old.items ++ said node (later_mentions expr.now)) }
{
    match expr {
        LaterExpr::Missing | LaterExpr::Underscore | LaterExpr::Offset => Ok(()),
        LaterExpr::Lit(_) | LaterExpr::Const(_) | LaterExpr::Let { .. } => Ok(()),
        LaterExpr::Field { .. } | LaterExpr::Return(_) | LaterExpr::Become(_) => Ok(()),
        LaterExpr::Ref { .. } | LaterExpr::Box(_) | LaterExpr::UnaryOp { .. } => Ok(()),
        LaterExpr::BinaryOp { .. } | LaterExpr::Assignment { .. } => Ok(()),
        LaterExpr::Range { .. } | LaterExpr::Index { .. } => Ok(()),
        LaterExpr::Path(path) => say_path(out, node, path),
        LaterExpr::Unsafe {
            statements,
            tail: _,
        } => {
            say_list(out, node, statements.len())?;
            say_stmts(out, node, statements.as_slice())
        }
        LaterExpr::Loop { label, body: _ } => say_label(out, node, label),
        LaterExpr::MethodCall {
            generic_args,
            args,
            ..
        } => {
            say_maybe_args(out, node, generic_args)?;
            say_list(out, node, args.len())
        }
        LaterExpr::Break { label, expr: _ } | LaterExpr::Continue { label } => {
            say_left(out, node, label)
        }
        LaterExpr::RecordLit { path, fields, .. } => {
            say_variant_path(out, node, path)?;
            say_list(out, node, fields.len())
        }
        LaterExpr::Cast { expr: _, type_ref } => say(out, node, Mention::Type(*type_ref)),
        LaterExpr::Array(exprs) => say_list(out, node, exprs.len()),
        LaterExpr::Repeat { length, .. } => say(out, node, Mention::Const(*length)),
        LaterExpr::Closure {
            params,
            ret_type,
            body: _,
        } => {
            say_list(out, node, params.len())?;
            say_params(out, node, params.as_slice())?;
            say_type(out, node, ret_type)
        }
    }
}

/// What a pattern names, and how long its lists are.
pub fn say_later_pat(out: &mut Vec<Said>, node: usize, pat: &LaterPat) -> Result<(), AllocError>
    ensures { OnOk result (out.new.items ≡ out.old.items ++ said node (later_pat_mentions pat.now)) }
{
    match pat {
        LaterPat::Missing | LaterPat::Range { .. } | LaterPat::Ref { .. } => Ok(()),
        LaterPat::Box(_) | LaterPat::ConstBlock(_) | LaterPat::Expr(_) => Ok(()),
        LaterPat::TupleDots { args, dots: _ } => say_list(out, node, args.len()),
        LaterPat::TupleStruct { path, args, .. } => {
            say_variant_path(out, node, path)?;
            say_list(out, node, args.len())
        }
        LaterPat::Record { path, args } => {
            say_variant_path(out, node, path)?;
            say_list(out, node, args.len())
        }
        LaterPat::Path(path) => say_path(out, node, path),
        LaterPat::Slice {
            prefix,
            slice: _,
            suffix,
        } => {
            say_list(out, node, prefix.len())?;
            say_list(out, node, suffix.len())
        }
        LaterPat::Or(pats) => say_list(out, node, pats.len()),
    }
}
