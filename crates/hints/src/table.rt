//! What is written otherwise here than in the GNU dialect of RISC-V, and than in other languages.

/// Mnemonics, with blanks between, and what is said of each.
pub(crate) type Row = (&'static str, &'static str);

/// Mnemonics that aren't known, and the lines that do the same, with semicolons between. In a line `$1` to `$9` are the operands, `$*`
/// all of them, and `$-` all but for the last byte. Of rows that say the same mnemonic, the first whose lines can be read.
pub(crate) const PSEUDO_INSTRUCTIONS: &'static [Row] = &[
    // Numbers and registers
    ("move mov", "mv $1, $2"),
    ("mov movi lli", "li $1, $2"),
    ("not", "xori $1, $2, -1"),
    ("neg", "sub $1, zero, $2"),
    ("negw", "subw $1, zero, $2"),
    ("subi", "addi $1, $2, -$3"),
    ("subiw", "addiw $1, $2, -$3"),
    ("inc", "addi $1, $1, 1"),
    ("dec", "addi $1, $1, -1"),
    ("sext.w", "addiw $1, $2, 0"),
    ("sext.b", "slli $1, $2, 56; srai $1, $1, 56"),
    ("sext.h", "slli $1, $2, 48; srai $1, $1, 48"),
    ("zext.b", "andi $1, $2, 255"),
    ("zext.h", "slli $1, $2, 48; srli $1, $1, 48"),
    ("zext.w", "slli $1, $2, 32; srli $1, $1, 32"),
    ("seqz", "sltiu $1, $2, 1"),
    ("snez", "sltu $1, zero, $2"),
    ("sltz", "slt $1, $2, zero"),
    ("sgtz", "slt $1, zero, $2"),
    ("sgt", "slt $1, $3, $2"),
    ("sgtu", "sltu $1, $3, $2"),
    ("lla lga", "la $1, $2"),
    // Branches and jumps
    ("beqz", "beq $1, zero, $2"),
    ("bnez", "bne $1, zero, $2"),
    ("blez", "bge zero, $1, $2"),
    ("bgez", "bge $1, zero, $2"),
    ("bltz", "blt $1, zero, $2"),
    ("bgtz", "blt zero, $1, $2"),
    ("bgt", "blt $2, $1, $3"),
    ("ble", "bge $2, $1, $3"),
    ("bgtu", "bltu $2, $1, $3"),
    ("bleu", "bgeu $2, $1, $3"),
    ("call bl", "jal ra, $1"),
    ("tail b br jmp goto", "j $1"),
    ("jr", "jalr zero, 0($1)"),
    ("jr", "jalr zero, $1"),
    // Control and status registers, and the machine
    ("csrr", "csrrs $1, $2, zero"),
    ("csrw", "csrrw zero, $1, $2"),
    ("csrs", "csrrs zero, $1, $2"),
    ("csrc", "csrrc zero, $1, $2"),
    ("csrw csrwi", "csrrwi zero, $1, $2"),
    ("csrs csrsi", "csrrsi zero, $1, $2"),
    ("csrc csrci", "csrrci zero, $1, $2"),
    ("rdcycle", "csrrs $1, mcycle, zero"),
    ("rdinstret", "csrrs $1, minstret, zero"),
    ("fence.tso pause", "fence"),
    ("scall syscall svc", "ecall"),
    ("sbreak bkpt int3", "ebreak"),
    ("eret", "mret"),
    ("unimp", ".word 0"),
    // Capabilities, as LLVM and other CHERI architectures name them
    ("cret", "ret"),
    ("cjr", "cjalr cnull, 0($1)"),
    ("cjr", "cjalr cnull, $1"),
    ("ccall", "cjal cra, $1"),
    ("ctail", "j $1"),
    ("cmv", "cmove $1, $2"),
    ("cllc clgc", "cla $1, $2"),
    ("cfromint", "csetaddr $1, cnull, $2"),
    ("cspecialr", "cspecialrw $1, $2, cnull"),
    ("cspecialw", "cspecialrw cnull, $1, $2"),
    ("cincaddr cadd", "cincoffset $1, $2, $3"),
    ("cincaddrimm caddi", "cincoffsetimm $1, $2, $3"),
    ("scaddr", "csetaddr $1, $2, $3"),
    ("scbndsr", "csetbounds $1, $2, $3"),
    ("scbnds", "csetboundsexact $1, $2, $3"),
    ("acperm", "candperm $1, $2, $3"),
    ("gcbase", "cgetbase $1, $2"),
    ("gclen", "cgetlen $1, $2"),
    ("gctag", "cgettag $1, $2"),
    ("gcperm", "cgetperm $1, $2"),
    ("gctype", "cgettype $1, $2"),
    ("sentry", "csealentry $1, $2"),
    ("scss", "ctestsubset $1, $2, $3"),
    ("sceq", "csetequalexact $1, $2, $3"),
    // Directives that place bytes
    (".string .asciz .asciiz", ".ascii $-\\0\""),
    (".1byte .dc.b db", ".byte $*"),
    (".short .hword .2byte .value dw", ".half $*"),
    (".long .int .4byte dd", ".word $*"),
    (".quad .8byte .xword dq", ".dword $*"),
    (".skip .space .fill", ".zero $1"),
    (".p2align", ".align $1"),
];

/// Mnemonics that aren't known, and what is said of them where no line does the same.
pub(crate) const UNKNOWN: &'static [Row] = &[
    (
        ".globl .global",
        "leave the line out: every label is known, and .entry names the first instruction",
    ),
    (
        ".equ .set .equiv .eqv #define",
        "there are no constants: write the number wherever it is meant",
    ),
    (
        ".section .text .data .rodata .bss .sdata .sbss .pushsection .popsection .previous",
        "leave the line out, or begin a section at an address by .org",
    ),
    (
        ".local .weak .extern .hidden .protected .type .size .file .ident .option .attribute .addrsig .loc .end",
        "leave the line out: it isn't needed here",
    ),
    (
        ".macro .endm .rept .endr .irp .irpc",
        "there are no macros: write the lines out",
    ),
    (
        ".if .ifdef .ifndef .else .elseif .endif",
        "there are no conditions: keep the lines that are meant, and leave out the others",
    ),
    (
        ".include .incbin",
        "no other file is read: write out here what it has",
    ),
    (
        ".comm .lcomm",
        "write the label and a colon, and .zero with the size after it",
    ),
    (
        ".float .double .single",
        "there is no floating point: write the bits by .word or .dword",
    ),
    (".insn", "write the instruction's word by .word"),
    (
        ".chericap .capinit",
        ".cap takes a capability's base, length, permissions and flag",
    ),
    (
        "sret uret sfence.vma",
        "this machine has machine mode alone",
    ),
    ("sc.w sc.d", "this machine has no atomic instructions"),
    ("!<arch>", "this is an archive of objects, not a text"),
];

/// What mnemonics that aren't known begin with, and what is said of them.
pub(crate) const FAMILIES: &'static [Row] = &[
    (".cfi_", "leave the line out: it isn't needed here"),
    ("c.", "this machine has no compressed instructions"),
    (
        "amo lr. sc.w. sc.d.",
        "this machine has no atomic instructions",
    ),
    (
        "fadd. fsub. fmul. fdiv. fsqrt. fmin. fmax. fsgn fmv. fcvt. feq. flt. fle. fmadd. flw fld fsw fsd",
        "this machine has no floating point",
    ),
];

/// Mnemonics whose operands are of another form here, and the lines that do what is meant; `$0` is the mnemonic.
pub(crate) const FORMS: &'static [Row] = &[
    ("mv", "li $1, $2"),
    ("mv li lui auipc", "la $1, $2"),
    ("li", "mv $1, $2"),
    ("sub", "addi $1, $2, -$3"),
    ("sub", "addi $1, $1, -$2"),
    ("subw", "addiw $1, $2, -$3"),
    ("jal", "jal ra, $1"),
    ("cjal", "cjal cra, $1"),
    ("jalr", "jalr ra, 0($1)"),
    ("cjalr", "cjalr cra, 0($1)"),
    ("csrrs csrrc", "$0 $1, $2, zero"),
    ("beq bne blt bge bltu bgeu", "$0 $1, zero, $2"),
    ("fence fence.i ret nop ecall ebreak mret wfi", "$0"),
    ("lb lh lw ld lbu lhu lwu", "la $1, $2; $0 $1, 0($1)"),
    (
        "clb clh clw cld clbu clhu clwu",
        "cla c$1, $2; $0 $1, 0(c$1)",
    ),
    ("clc", "cla $1, $2; $0 $1, 0($1)"),
    ("sb sh sw sd", "la $3, $2; $0 $1, 0($3)"),
    ("csb csh csw csd csc", "cla $3, $2; $0 $1, 0($3)"),
    (".byte", ".ascii $*"),
];

/// What the operands of any mnemonic may be meant to be.
pub(crate) const ANY_FORM: &'static [&'static str] = &[
    "$0 $1, $1, $2",
    "$0 $1, 0($2)",
    "$0 $1, $2($3)",
    "$0 $1, $3($2)",
    "$0 $1, ($2)",
    "$0 $2, $1",
    "$0 $1, $3, $2",
    "$0 $2, $1, $3",
];

/// Mnemonics that take a register last, and those that take a number in its place.
pub(crate) const IMMEDIATE_FORMS: &'static [Row] = &[
    ("add", "addi"),
    ("addw", "addiw"),
    ("and", "andi"),
    ("or", "ori"),
    ("xor", "xori"),
    ("slt", "slti"),
    ("sltu", "sltiu"),
    ("sll", "slli"),
    ("srl", "srli"),
    ("sra", "srai"),
    ("sllw", "slliw"),
    ("srlw", "srliw"),
    ("sraw", "sraiw"),
    ("csrrw", "csrrwi"),
    ("csrrs", "csrrsi"),
    ("csrrc", "csrrci"),
    ("cincoffset", "cincoffsetimm"),
    ("csetbounds", "csetboundsimm"),
];

/// Shifts by a number: in a register it has no more bits than in the instruction.
pub(crate) const SHIFTS: &'static str = "slli srli srai slliw srliw sraiw";

/// Mnemonics whose number is too great, and the lines that take it.
pub(crate) const WIDER: &'static [Row] = &[
    (".byte", ".half $*"),
    (".byte .half", ".word $*"),
    (".byte .half .word", ".dword $*"),
];

/// Mnemonics whose line is too long, and what is said of it.
pub(crate) const TOO_LONG: &'static [Row] = &[
    (
        ".byte .half .word .dword",
        "write the values on more than one line",
    ),
    (".ascii", "write the text on more than one line"),
];

/// Jumps to a label that is named as a register is, and the lines that jump to what the register holds.
pub(crate) const REGISTER_JUMPS: &'static [Row] = &[
    ("j", "jalr zero, 0($1)"),
    ("jal", "jalr $1, 0($2)"),
    ("cjal", "cjalr $1, 0($2)"),
];

/// What the names of registers with a number begin with, and what is said where there is no such register.
pub(crate) const REGISTERS: &'static [Row] = &[
    ("x r", "the registers are x0 to x31"),
    ("c", "the registers are c0 to c31"),
    ("a", "the registers of this kind are a0 to a7"),
    ("s", "the registers of this kind are s0 to s11"),
    ("t", "the registers of this kind are t0 to t6"),
    ("ca", "the registers of this kind are ca0 to ca7"),
    ("cs", "the registers of this kind are cs0 to cs11"),
    ("ct", "the registers of this kind are ct0 to ct6"),
    ("f fa fs ft", "this machine has no floating-point registers"),
];

/// Other names of registers, and what they are here.
pub(crate) const OTHER_NAMES: &'static [Row] = &[
    ("lr", "ra"),
    ("clr", "cra"),
    ("cycle", "mcycle"),
    ("instret", "minstret"),
];

/// The mnemonics that aren't names of rows.
pub(crate) const OTHER_MNEMONICS: [&'static str; 19] = [
    "nop", "li", "mv", "j", "ret", "la", "cla", ".pages", ".mode", ".entry", ".org", ".align",
    ".zero", ".byte", ".half", ".word", ".dword", ".ascii", ".cap",
];

/// What is said of a word by the first row that lists it.
pub(crate) fn row_of(table: &[Row], word: &[u8]) -> Option<&'static str> {
    for row in table {
        if is_listed(row.0, word) {
            return Some(row.1);
        }
    }
    None
}

/// Whether a word is one of those of a list with blanks between.
pub(crate) fn is_listed(list: &str, word: &[u8]) -> bool {
    list.as_bytes()
        .split(|byte| *byte == b' ')
        .any(|name| name == word)
}

/// Whether a word begins with one of those of a list with blanks between.
fn begins_as_listed(list: &str, word: &[u8]) -> bool {
    list.as_bytes()
        .split(|byte| *byte == b' ')
        .any(|beginning| word.starts_with(beginning))
}

/// What is said of the words that begin as a row says.
pub(crate) fn family_of(table: &[Row], word: &[u8]) -> Option<&'static str> {
    for row in table {
        if begins_as_listed(row.0, word) {
            return Some(row.1);
        }
    }
    None
}
