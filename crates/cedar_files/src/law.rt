//! What follows from the definitions alone.
ghost use Rattle.std.specs.Prelude.{◌≡◌, ◌++◌, ℕ, List, None, length};
ghost use Rattle.cedar_ast.specs.PolicyTree.{PolicyTree};
ghost use Rattle.cedar_schema_spec.specs.SchemaTree.{SchemaTree};
ghost use Rattle.cedar_check_spec.specs.declared.settings.Settings.{Settings};
ghost use Rattle.cedar_files.specs.Languages.{FilesAreKept};
ghost use Rattle.cedar_files.specs.ReportPart.{IsReportPart, beginning, totals_text};
ghost use Rattle.cedar_files.specs.ReportText.{IsReportText};
ghost use Rattle.cedar_files.specs.declared.report_place.ReportPlace.{ReportPlace};

use cedar_check_law::validation_in_each_language;
use cedar_parser::{texts_begin_with_no_brace, texts_of_each_language};
use cedar_schema::profile_schemas;

/// Two parts of a report, of which the second begins at the place where the first ends, are one part: the text of the first and then
/// that of the second. The part from the beginning to the last policy without a limit of lines is the report, with the line of totals
/// after it. A law: it runs no code.
pub fn parts_are_the_report()
    ensures joined { (settings : Settings) (s : SchemaTree) (ps : List PolicyTree) (from mid to : ReportPlace) (text more : List ℕ)
        → IsReportPart settings s ps from mid text → IsReportPart settings s ps mid to more → IsReportPart settings s ps from to (text ++ more) }
    ensures whole { (settings : Settings) (s : SchemaTree) (ps : List PolicyTree) (to : ReportPlace) (text : List ℕ)
        → IsReportPart settings s ps (beginning None) to text → to.policy ≡ length ps → IsReportText settings s ps (text ++ totals_text to) }
{}

/// Files that are read in the profile hold the same in Cedar 4, under the same choices, and each request has the same answer, if the
/// names of the schema mean the same there: no definition shadows another, and no common type is called `Bool` or `EntityOrCommon`.
/// So the option `--language 4` changes nothing for them. A law: it runs no code.
pub fn files_of_the_profile()
    ensures { FilesAreKept }
{
    texts_of_each_language();
    texts_begin_with_no_brace();
    profile_schemas();
    validation_in_each_language();
}
