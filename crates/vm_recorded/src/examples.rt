// Worked examples of texts.
ghost use Rattle.std.specs.Prelude.{[], ◌∷◌, codes, None, Some};
ghost use Rattle.vm_recorded.specs.Examples.{HasText, guest, policy_with};

/// The texts of small hosts.
pub fn law_texts()
    // What is used less than before is given up first, and where nothing is used there is only a yield.
    ensures alone { HasText (policy_with 0 16 16) 7
        (guest (codes "a") 1000 350 1000 1000 0 (Some 300 ∷ Some 500 ∷ Some 500 ∷ Some 200 ∷ Some 0 ∷ Some 0 ∷ Some 250 ∷ []) ∷ [])
        (codes "{\"version\":3,\"frames\":1000,\"swap\":650,\"overhead\":0,\"tax\":7500,\"percent\":[600,400,200,100],\"page_rate\":16,\"rebalance\":16,\"page\":1000,\"quantum\":501,\"epochs\":7,\"guests\":[{\"name\":\"a\",\"size\":1000,\"min\":350,\"shares\":1000,\"period\":501,\"rate\":256,\"seed\":0,\"autostart\":true,\"tell\":false,\"trace\":[\"t 0 300\",\"y\",\"t 0 500\",\"y\",\"t 0 500\",\"y\",\"f 200 300\",\"t 0 200\",\"y\",\"f 0 200\",\"y\",\"y\",\"t 0 250\",\"y\"]}],\"commands\":[]}\n") }

    // Guests come and go, in an epoch first those that go, and one has no use in between.
    ensures several { HasText (policy_with 2 132 0) 6
        (guest (codes "a") 400 140 400 1000 2 (Some 90 ∷ Some 80 ∷ Some 80 ∷ Some 80 ∷ [])
        ∷ guest (codes "b") 200 70 200 1000 0 (Some 50 ∷ Some 40 ∷ [])
        ∷ guest (codes "c") 100 35 100 1000 1 (Some 30 ∷ Some 20 ∷ None ∷ Some 60 ∷ [])
        ∷ [])
        (codes "{\"version\":3,\"frames\":1000,\"swap\":455,\"overhead\":2,\"tax\":7500,\"percent\":[600,400,200,100],\"page_rate\":132,\"rebalance\":0,\"page\":1000,\"quantum\":91,\"epochs\":6,\"guests\":[{\"name\":\"a\",\"size\":400,\"min\":140,\"shares\":1000,\"period\":91,\"rate\":256,\"seed\":0,\"autostart\":false,\"tell\":false,\"trace\":[\"t 0 90\",\"y\",\"f 80 10\",\"t 0 80\",\"y\",\"t 0 80\",\"y\",\"t 0 80\",\"y\"]},{\"name\":\"b\",\"size\":200,\"min\":70,\"shares\":1000,\"period\":91,\"rate\":256,\"seed\":1,\"autostart\":true,\"tell\":false,\"trace\":[\"t 0 50\",\"y\",\"f 40 10\",\"t 0 40\",\"y\"]},{\"name\":\"c\",\"size\":100,\"min\":35,\"shares\":1000,\"period\":91,\"rate\":256,\"seed\":2,\"autostart\":false,\"tell\":false,\"trace\":[\"t 0 30\",\"y\",\"f 20 10\",\"t 0 20\",\"y\",\"y\",\"t 0 60\",\"y\"]}],\"commands\":[{\"at\":1,\"line\":\"start c\"},{\"at\":2,\"line\":\"destroy b\"},{\"at\":2,\"line\":\"start a\"},{\"at\":5,\"line\":\"destroy c\"}]}\n") }

    // What a guest may have is said at its first epoch, where that is less than its size.
    ensures capped { HasText (policy_with 0 400 400) 4
        (guest (codes "a") 400 30 120 7 0 (Some 90 ∷ Some 90 ∷ Some 90 ∷ Some 90 ∷ [])
        ∷ guest (codes "b") 301 151 301 1000 3 (Some 90 ∷ [])
        ∷ guest (codes "c") 100 50 90 1000 1 (Some 70 ∷ Some 70 ∷ [])
        ∷ [])
        (codes "{\"version\":3,\"frames\":1000,\"swap\":570,\"overhead\":0,\"tax\":7500,\"percent\":[600,400,200,100],\"page_rate\":256,\"rebalance\":400,\"page\":1000,\"quantum\":91,\"epochs\":4,\"guests\":[{\"name\":\"a\",\"size\":400,\"min\":30,\"shares\":7,\"period\":91,\"rate\":256,\"seed\":0,\"autostart\":true,\"tell\":false,\"trace\":[\"t 0 90\",\"y\",\"t 0 90\",\"y\",\"t 0 90\",\"y\",\"t 0 90\",\"y\"]},{\"name\":\"b\",\"size\":301,\"min\":151,\"shares\":1000,\"period\":91,\"rate\":256,\"seed\":1,\"autostart\":false,\"tell\":false,\"trace\":[\"t 0 90\",\"y\"]},{\"name\":\"c\",\"size\":100,\"min\":50,\"shares\":1000,\"period\":91,\"rate\":256,\"seed\":2,\"autostart\":false,\"tell\":false,\"trace\":[\"t 0 70\",\"y\",\"t 0 70\",\"y\"]}],\"commands\":[{\"at\":0,\"line\":\"setmem a 120000\"},{\"at\":1,\"line\":\"start c\"},{\"at\":1,\"line\":\"setmem c 90000\"},{\"at\":3,\"line\":\"destroy c\"},{\"at\":3,\"line\":\"start b\"}]}\n") }
{}
