//! Policies judged one after another: what strict validation finds in them, and what is made of them.
ghost use Rattle.std.specs.Prelude.{◌≡◌, ◌++◌, ◌∷◌, [], IfOk, List, OnOk};
ghost use Rattle.cedar_ast.specs.Condition.{condition_of};
ghost use Rattle.cedar_ast.specs.PolicyTree.{PolicyTree};
ghost use Rattle.cedar_auth.specs.Private.Kept.{IsJudged};

use crate::compiled::Compiled;
use cedar_ast::{Policy, PolicySet};
use cedar_ast_expressions::Expr;
use cedar_check::{Report, Validator};
use cedar_check_spec::Settings;
use cedar_code::CodeFault;
use cedar_schema::Schema;
use std::alloc::{AllocError, Global};

/// What strict validation finds in policies, and what is made of each of them.
#[derive(Drop)]
pub(crate) struct Judged {
    /// What is found.
    pub(crate) report: Report,
    /// What is made of them, in order, up to the first one whose code is too long.
    pub(crate) compiled: Vec<Compiled>,
    /// Whether the code of some policy would have over 1,000,000 instructions.
    pub(crate) too_long: bool,
}

impl Judged {
    // Judges one more policy. Its condition is made once, for the check and for the compiler.
    fn add(
        &mut self,
        alloc: Global,
        validator: &Validator<'_>,
        settings: Settings,
        policy: &Policy,
    ) -> Result<(), AllocError>
        ensures { OnOk result ((ps : List PolicyTree) → IsJudged settings validator.now ps self.old → IsJudged settings validator.now (ps ++ policy.now ∷ []) self.new) }
    {
        let condition = policy.condition(alloc)?;
        let added = self.add_condition(alloc, validator, settings, policy, &condition);
        drop(condition);
        added
    }

    // The same, with the policy's condition, which is lent.
    fn add_condition(
        &mut self,
        alloc: Global,
        validator: &Validator<'_>,
        settings: Settings,
        policy: &Policy,
        condition: &Expr,
    ) -> Result<(), AllocError>
        requires { condition.now ≡ condition_of policy.now }
        ensures { OnOk result ((ps : List PolicyTree) → IsJudged settings validator.now ps self.old → IsJudged settings validator.now (ps ++ policy.now ∷ []) self.new) }
    {
        validator.check(alloc, settings, policy, condition, &mut self.report)?;
        if self.too_long {
            return Ok(());
        }
        match Compiled::of(alloc, condition) {
            Ok(compiled) => {
                self.compiled.push(compiled)?;
                Ok(())
            }
            Err(CodeFault::TooLong) => {
                self.too_long = true;
                Ok(())
            }
            Err(CodeFault::OutOfMemory) => Err(AllocError),
        }
    }
}

/// What strict validation under these settings finds in the policies for a schema, and what is made of them.
pub(crate) fn judge_all(
    alloc: Global,
    schema: &Schema,
    policies: &PolicySet,
    settings: Settings,
) -> Result<Judged, AllocError>
    ensures { IfOk result (IsJudged settings schema.now policies.now.policies) }
{
    let validator = Validator::new(alloc, schema)?;
    let mut judged = Judged {
        report: Report::new(alloc),
        compiled: Vec::with_capacity(alloc, policies.count())?,
        too_long: false,
    };
    for position in 0..policies.count() {
        let Some(policy) = policies.policy(position) else {
            unreachable!()
        };
        judged.add(alloc, &validator, settings, policy)?;
    }
    Ok(judged)
}
