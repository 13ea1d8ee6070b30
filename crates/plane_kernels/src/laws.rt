//! What holds of the bytes of all planes.

ghost use Rattle.plane_kernels.specs.Bytes.{AreOfOneList, AreOfSomeList, HaveNoPadBits};

/// Of as many bytes as a plane has, those without pad bits are the bytes of exactly one list of rows, and no others are.
pub fn bytes_are_exact()
    ensures clean { HaveNoPadBits }
    ensures one { AreOfOneList }
    ensures some { AreOfSomeList }
{}
