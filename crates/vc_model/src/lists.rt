ghost use Rattle.std.specs.Prelude.{Bool};
ghost use Rattle.vc_model.specs.Lists.{IsEqualityTest, same_pair, same_list};

/// Tests of equality of members give such tests of pairs and of lists.
pub fn equality_tests_combine<X, Y>()
    ensures pairs { (same : X → X → Bool) (alike : Y → Y → Bool) → IsEqualityTest same
        → IsEqualityTest alike → IsEqualityTest (same_pair same alike) }
    ensures lists { (same : X → X → Bool) → IsEqualityTest same → IsEqualityTest (same_list same) }
{}
