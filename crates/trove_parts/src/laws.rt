//! Bytes begin with the items of one list at most, and files have one list of items in both encodings or two.
ghost use Rattle.std.specs.Prelude.{◌≡◌, ◌↔◌, List, ℕ, All};
ghost use Rattle.cny_dep.specs.Dep.{IsDependency, dep_text};
ghost use Rattle.cny_stream.specs.declared.encoding.Encoding.{Encoding};
ghost use Rattle.cny_stream.specs.declared.encoding.Encoding.TheVariants.{Compact, Explicit};
ghost use Rattle.trove_parts.specs.Id.{IsTroveId, id_bytes};
ghost use Rattle.trove_parts.specs.declared.files.FileAt.{FileAt};
ghost use Rattle.trove_parts.specs.Files.{IsFileAt, HasOtherOwner, file_value, files_bytes};
ghost use Rattle.trove_parts.specs.Items.{AreOfOneList};
ghost use Rattle.trove_parts.specs.Paths.{IsPath, path_value};

use crate::files::FileAt;
use crate::id::TroveId;
use crate::items::one_list;
use cny_dep::Dep;
use cny_stream::distinct_records;
use cny_version::cny_base::Path;

/// No bytes begin with the items of two lists of files, whichever the encodings of both, of two lists of ids, of
/// dependencies, or of paths. The items of files are equal in both encodings exactly where root owns no directory and no
/// file of them.
pub fn distinct_lists()
    ensures files { (one other : Encoding) → AreOfOneList (file_value one) (file_value other) IsFileAt }
    ensures refs { AreOfOneList id_bytes id_bytes IsTroveId }
    ensures deps { AreOfOneList dep_text dep_text IsDependency }
    ensures paths { AreOfOneList path_value path_value IsPath }
    ensures both { (tag : ℕ) (files : List FileAt) → (files_bytes Compact tag files ≡ files_bytes Explicit tag files) ↔ All HasOtherOwner files }
{
    one_list::<FileAt>();
    one_list::<TroveId>();
    one_list::<Dep>();
    one_list::<Path>();
    distinct_records();
}
