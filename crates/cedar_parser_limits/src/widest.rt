//! A law about languages.
ghost use Rattle.cedar_ext.specs.declared.language.Language.{Language};
ghost use Rattle.cedar_ext.specs.declared.language.Language.TheVariants.{Cedar4};
ghost use Rattle.cedar_parser_tree.specs.StatementTree.{StatementTree};
ghost use Rattle.cedar_parser_limits.specs.StatementLimits.{IsWithinLimits};

/// A statement that is within the limits of a language is within those of Cedar 4, which has each function and each method. A law:
/// it runs no code.
pub fn cedar4_is_widest()
    ensures { (language : Language) (statement : StatementTree) → IsWithinLimits language statement → IsWithinLimits Cedar4 statement }
{}
