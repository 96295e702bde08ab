//! The faults of an ELF file, and their order.

ghost use Rattle.std.specs.Prelude.{◌≡◌, ◌↔◌, ℕ, List, None, Some};
ghost use Rattle.dwz_model.specs.declared.fault.Fault.{Fault};
ghost use Rattle.dwz_def_reading.specs.ElfFaults.{ElfManner, IsElfFault, IsElfFaultFor, IsFirstElfFaultFor, read_back};
ghost use Rattle.dwz_def_reading.specs.ElfReading.{elf_fault_for};

/// The faults of an ELF file, in whichever manner it is read: the fault that is answered is the first, whose row holds at its place
/// while no row before it does, and the first is answered; where none is answered no row holds. The first is one of the faults;
/// and what is a fault of a file that is read back is one of a file by itself.
pub fn elf_fault_laws()
    ensures first { (m : ElfManner) (bytes : List ℕ) (f : Fault) → (elf_fault_for m bytes ≡ Some f) ↔ IsFirstElfFaultFor m bytes f }
    ensures none { (m : ElfManner) (bytes : List ℕ) (f : Fault) → elf_fault_for m bytes ≡ None → ¬ IsElfFaultFor m bytes f }
    ensures one { (m : ElfManner) (bytes : List ℕ) (f : Fault) → IsFirstElfFaultFor m bytes f → IsElfFaultFor m bytes f }
    ensures back { (bytes : List ℕ) (f : Fault) → IsElfFaultFor read_back bytes f → IsElfFault bytes f }
{}
