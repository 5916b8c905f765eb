//! Names of functions, and signatures.
ghost use Rattle.std.specs.Prelude.{◌≡◌, fold, map, IfOk};
ghost use Rattle.clif_names.specs.Limits.{name_limits};
ghost use Rattle.clif_lines.specs.Keeping.{AllKeep};
ghost use Rattle.clif_meaning.specs.Meaning as spec;

use crate::narrowing::{entity_number, word_number};
use clif_read::{RawAttribute, RawFuncName, RawParam, RawSignature};
use ir_core::{Conv, Ext, Few, FuncName, Param, Purpose, Sig};
use std::alloc::{AllocError, Global};

/// The name of a function. Only `AllocError` refuses.
pub fn func_name(name: &RawFuncName) -> Result<FuncName, AllocError>
    requires { AllKeep (name_limits name.now) }
    ensures { IfOk result (λ named. named ≡ spec.name_of name.now) }
{
    match name {
        RawFuncName::Text { name, .. } => Ok(FuncName::Text(name.clone()?)),
        RawFuncName::User { space, number } => Ok(FuncName::User(
            word_number(*space),
            entity_number(*number),
        )),
    }
}

/// The parameter with one more attribute.
fn with_attribute(param: Param, attribute: RawAttribute) -> Param
    ensures { result ≡ spec.with_attribute param attribute }
{
    match attribute {
        RawAttribute::Uext => Param {
            ext: Ext::Uext,
            ..param
        },
        RawAttribute::Sext => Param {
            ext: Ext::Sext,
            ..param
        },
        RawAttribute::Vmctx => Param {
            purpose: Purpose::Vmctx,
            ..param
        },
        RawAttribute::Sret => Param {
            purpose: Purpose::Sret,
            ..param
        },
    }
}

/// A parameter or a result.
#[tactic(auto, using(name_tables::proofs::Folds::fold_one))]
fn param(written: &RawParam) -> Param
    ensures { result ≡ spec.param_of written.now }
{
    let attributes = written.attributes.as_slice();
    let mut param = Param {
        ty: written.ty,
        ext: Ext::No,
        purpose: Purpose::Normal,
    };
    for attribute in attributes {
        param = with_attribute(param, *attribute);
    }
    param
}

/// The parameters or the results.
fn params(alloc: Global, written: &[RawParam]) -> Result<Few<Param>, AllocError>
    ensures { IfOk result (λ list. list ≡ map spec.param_of written.now) }
{
    match written {
        [one] => Ok(Few::one(param(one))),
        _ => many_params(alloc, written),
    }
}

/// The parameters or the results, of however many.
#[tactic(auto, using(name_tables::proofs::Folds::map_more))]
fn many_params(alloc: Global, written: &[RawParam]) -> Result<Few<Param>, AllocError>
    ensures { IfOk result (λ list. list ≡ map spec.param_of written.now) }
{
    let mut list = Vec::with_capacity(alloc, written.len())?;
    for item in written {
        list.push(param(item))?;
    }
    Ok(Few::from_vec(list))
}

/// A signature. Its convention is `fast` where none is written. Takes time linear in it; only `AllocError` refuses.
pub fn signature(alloc: Global, written: &RawSignature) -> Result<Sig, AllocError>
    ensures { IfOk result (λ sig. sig ≡ spec.sig_of written.now) }
{
    Ok(Sig {
        params: params(alloc, written.params.as_slice())?,
        results: params(alloc, written.results.as_slice())?,
        conv: written.conv.unwrap_or(Conv::Fast),
    })
}
