//! What every policy is like, and worked texts: each contract is a law over the definitions alone, and the bodies are empty.
ghost use Rattle.std.specs.Prelude.{◌≡◌, ℕ, List, [], ◌∷◌, ◌++◌, codes, true, false, Some, None, Ok, Err};
ghost use Rattle.std.specs.List.{AllByRecursion};
ghost use Rattle.symbols.specs.Symbols.{Symbol, symbol};
ghost use Rattle.policy_text.specs.declared.fault.PolicyCode.TheVariants.{P1, P2, P3, P4, P5, P6, P7, P8};
ghost use Rattle.policy.specs.Terms.{Terms};
ghost use Rattle.policy_text.specs.Policy.{range, everywhere, policy_of, spoken_of};
ghost use Rattle.policy_text.specs.Sound.{IsSound};

/// A rule of a policy that is read is about the code of some range, none of its ranges is empty, and its object types are at most
/// 0x3FFFB, the greatest of sealed capabilities.
pub fn rules_are_sound()
    ensures { (symbols : List Symbol) (text : List ℕ) (rules : List (ℕ × Terms)) → policy_of symbols text ≡ Ok rules
        → AllByRecursion (λ r. IsSound r.1) rules }
{}

/// A policy with a definition, a label, a device register, a comment, an empty line and two rules, of which the second lets callers lend.
pub fn worked_policy()
    ensures { policy_of (symbol 0x80001000 (codes "vault") ∷ [])
        (codes "ram = 0x80000000..+0x100 vault..+16 # areas\n"
        ++ codes "\n"
        ++ codes "when pc in ram: store within ram control, load no, keep within vault..+32, enter within vault..+16, "
        ++ codes "transmit no, types 4 5\n"
        ++ codes "when pc in vault..0x80002000: system no, or caller, seal yes, types none")
        ≡ Ok ((
          3,
          record {
            code = range 0x80000000 0x80000100 ∷ range 0x80001000 0x80001010 ∷ [];
            store = range 0x80000000 0x80000100 ∷ range 0x80001000 0x80001010 ∷ range 0x10000018 0x10000020 ∷ spoken_of;
            load = [];
            execute = everywhere;
            keep = range 0x80001000 0x80001020 ∷ [];
            enter = range 0x80001000 0x80001010 ∷ [];
            transmit = false;
            halt = true;
            timer = true;
            system = true;
            seal = true;
            types = Some (4 ∷ 5 ∷ []);
            or_caller = false;
          },
        ) ∷ (
          4,
          record {
            code = range 0x80001000 0x80002000 ∷ [];
            store = everywhere;
            load = everywhere;
            execute = everywhere;
            keep = everywhere;
            enter = everywhere;
            transmit = true;
            halt = true;
            timer = true;
            system = false;
            seal = true;
            types = Some [];
            or_caller = true;
          },
        ) ∷ []) }
{}

/// A text for each code, and some whose lines have two faults: the first is reported.
pub fn worked_faults()
    ensures form { policy_of [] (codes "when pc at 0..4: halt no") ≡ Err (1, P1) }
    ensures unknown { policy_of [] (codes "when pc in ram: halt no") ≡ Err (1, P2) }
    ensures device { policy_of [] (codes "mtime = 0..1") ≡ Err (1, P3) }
    ensures twice { policy_of [] (codes "a = 0..1\na = 0..1") ≡ Err (2, P3) }
    ensures number { policy_of [] (codes "when pc in 0..4: types 0x3FFFC") ≡ Err (1, P4) }
    ensures empty { policy_of [] (codes "a = 4..4") ≡ Err (1, P5) }
    ensures no_part { policy_of [] (codes "when pc in 0..4:") ≡ Err (1, P6) }
    ensures part_twice { policy_of [] (codes "when pc in 0..4: halt no, halt yes") ≡ Err (1, P7) }
    ensures malformed { policy_of [] (codes "when pc in 0..4: halt maybe") ≡ Err (1, P8) }
    ensures or_whom { policy_of [] (codes "when pc in 0..4: halt no, or callers") ≡ Err (1, P8) }
    ensures or_twice { policy_of [] (codes "when pc in 0..4: or caller, halt no, or caller") ≡ Err (1, P7) }
    ensures label { policy_of [] (codes "a = x..0x") ≡ Err (1, P2) }
    ensures over { policy_of [] (codes "a = 0xFFFFFFFFFFFFFFFF..+1 0xFFFFFFFFFFFFFFFF..+2") ≡ Err (1, P4) }
    ensures first_word { policy_of [] (codes "a = 0..4 4..4 b") ≡ Err (1, P5) }
    ensures first_part { policy_of [] (codes "when pc in 0..4: halt no, halt maybe, stop") ≡ Err (1, P7) }
    ensures first_line { policy_of [] (codes "a = 0..4\nb = a c\na = 4..4") ≡ Err (2, P2) }
{}
