//! What holds of all files.

ghost use Rattle.plane_file.specs.Laws.{AreFaultless, FilesShowNoFault, FilesTellCells, HasHead};
ghost use Rattle.plane_file.specs.Laws.{HaveOneHead, HaveTables, ShowOneFault, TablesAreOne};

/// Bytes without a fault begin with the head of a table, and have the size of its file: so `open` has an answer for all
/// bytes.
pub fn faultless_files_have_heads()
    ensures { HasHead }
{}

/// Bytes that begin with a head, and have the size of its file, have no fault: so `open` refuses none of them but where the
/// store fails or memory runs out.
pub fn spelled_files_have_no_fault()
    ensures { AreFaultless }
{}

/// Bytes begin with the head of one table at most, in one version.
pub fn files_have_one_head()
    ensures { HaveOneHead }
{}

/// A file is that of one table of its head at most.
pub fn files_tell_cells()
    ensures { FilesTellCells }
{}

/// Bytes are the file of one table at most, in one version.
pub fn tables_are_one()
    ensures { TablesAreOne }
{}

/// The faults that `read_table` tells of bytes are exact: no bytes show two, and the file of a table shows none. So where bytes
/// show a fault `read_table` answers it, unless the store fails or memory runs out.
pub fn file_faults_are_exact()
    ensures one { ShowOneFault }
    ensures none { FilesShowNoFault }
{}

/// Bytes are the file of a table exactly where their head has no fault, no plane has a bit past the last row, and each prefix
/// is that of a cell: else they show which of these fails first.
pub fn files_have_tables()
    ensures { HaveTables }
{}
