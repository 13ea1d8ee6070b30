//! What a file of a table tells. Each law stands on a function that does nothing.

ghost use Rattle.plane_course.specs.Told.{FilesHaveTheirPlanes, FilesTellPlanes};

/// The bits at the places of a table's file are the planes of the table.
pub fn files_tell_planes()
    ensures { FilesTellPlanes }
{}

/// So the table has the planes that rounds over them read.
pub fn files_have_their_planes()
    ensures { FilesHaveTheirPlanes }
{}
