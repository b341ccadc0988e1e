//! What holds of the lists. Each law is the contract of a function that does nothing.
ghost use Rattle.std.specs.Prelude.{◌≡◌, ◌↔◌, ◌≤◌, ℕ, false, List, [], length, All, None};
ghost use Rattle.std.specs.List.{IsDistinct};
ghost use Rattle.npos_base.specs.declared.account.AccountId.{AccountId};
ghost use Rattle.voter_lists.specs.Bags.{Order, Listing, bag_of, number_of, is_listed, is_at_home, rebag_refusal, put_in_front_refusal, in_walk_order, joined, inserted, removed, moved, put_in_front};
ghost use Rattle.npos_base.specs.Account.{same_account};
ghost use Rattle.voter_lists.specs.Roles.{RoleList, has_repeated_account, nominate_refusal, without_role};
ghost use Rattle.voter_lists.specs.declared.standing.Role.{Role};
ghost use Rattle.voter_lists.specs.Taken.{NeverRises, AreSound, CanTake, IsNomination, with_role};
ghost use Rattle.voter_lists.specs.OneWalk.{IsOneWalk, StandsIn, AreOneList, listing_of, appended, taken_out, appended_anew, put_before};

/// The bags keep their list in the order of its walk. A list that an account joins at its end,
/// wherever its bag is in the walk, serves as well: of two lists with one walk, where a call
/// changes the one as it is and arranges the other, the walk is again one. In a put in front both
/// accounts stand in one bag, which is the case where it is not refused.
pub fn calls_end_with_one_walk()
    ensures inserts { (thresholds : List ℕ) (list arranged : Order) (who : AccountId) (score : ℕ)
        → IsOneWalk thresholds list arranged
        → IsOneWalk thresholds (appended thresholds list who score)
        (inserted (listing_of thresholds arranged) who score).order }
    ensures removes { (thresholds : List ℕ) (list arranged : Order) (who : AccountId)
        → IsOneWalk thresholds list arranged
        → IsOneWalk thresholds (taken_out list who)
        (removed (listing_of thresholds arranged) who).order }
    ensures moves { (thresholds : List ℕ) (list arranged : Order) (who : AccountId) (score : ℕ)
        → IsOneWalk thresholds list arranged
        → IsOneWalk thresholds (appended_anew thresholds list who score)
        (moved (listing_of thresholds arranged) who score).order }
    ensures fronts { (thresholds : List ℕ) (list arranged : Order) (who lighter : AccountId)
        (number : ℕ) → IsOneWalk thresholds list arranged
        → StandsIn who number list → StandsIn who number arranged → StandsIn lighter number list
        → StandsIn lighter number arranged
        → IsOneWalk thresholds (put_before list who lighter)
        (put_in_front (listing_of thresholds arranged) who lighter).order }
{}

/// Where each account stands once, the two ways to keep the list give the same answers: in lists
/// with one walk each account has the same bag, so the same calls are refused, for the same reason.
pub fn one_walk_gives_the_same_answers()
    ensures bags { (thresholds : List ℕ) (list arranged : Order) (who : AccountId)
        → AreOneList thresholds list arranged → number_of list who ≡ number_of arranged who }
    ensures homes { (thresholds : List ℕ) (list arranged : Order) (who : AccountId) (score : ℕ)
        → AreOneList thresholds list arranged
        → is_at_home (listing_of thresholds list) who score
        ≡ is_at_home (listing_of thresholds arranged) who score }
    ensures rebags { (thresholds : List ℕ) (list arranged : Order) (who : AccountId) (score : ℕ)
        → AreOneList thresholds list arranged
        → rebag_refusal (listing_of thresholds list) who score
        ≡ rebag_refusal (listing_of thresholds arranged) who score }
    ensures fronts { (thresholds : List ℕ) (list arranged : Order) (who : AccountId) (score : ℕ)
        (lighter : AccountId) (lighter_score : ℕ) → AreOneList thresholds list arranged
        → put_in_front_refusal (listing_of thresholds list) who score lighter lighter_score
        ≡ put_in_front_refusal (listing_of thresholds arranged) who score lighter lighter_score }
{}

/// The two ways to keep the list go on as one: each call that is not refused leaves lists with one
/// walk, in which each account stands once.
pub fn calls_keep_each_account_once()
    ensures inserts { (thresholds : List ℕ) (list arranged : Order) (who : AccountId) (score : ℕ)
        → AreOneList thresholds list arranged → is_listed list who ≡ false
        → AreOneList thresholds (appended thresholds list who score)
        (inserted (listing_of thresholds arranged) who score).order }
    ensures removes { (thresholds : List ℕ) (list arranged : Order) (who : AccountId)
        → AreOneList thresholds list arranged
        → AreOneList thresholds (taken_out list who)
        (removed (listing_of thresholds arranged) who).order }
    ensures moves { (thresholds : List ℕ) (list arranged : Order) (who : AccountId) (score : ℕ)
        → AreOneList thresholds list arranged
        → AreOneList thresholds (appended_anew thresholds list who score)
        (moved (listing_of thresholds arranged) who score).order }
    ensures fronts { (thresholds : List ℕ) (list arranged : Order) (who : AccountId) (score : ℕ)
        (lighter : AccountId) (lighter_score : ℕ) → AreOneList thresholds list arranged
        → put_in_front_refusal (listing_of thresholds list) who score lighter lighter_score ≡ None
        → AreOneList thresholds (put_before list who lighter)
        (put_in_front (listing_of thresholds arranged) who lighter).order }
{}

/// A list of accounts repeats one exactly where its accounts are not distinct.
pub fn accounts_repeat_or_are_distinct()
    ensures { (accounts : List AccountId)
        → (has_repeated_account accounts ≡ false) ↔ IsDistinct same_account accounts }
{}

/// A list of accounts with their bags is the list of its walk exactly where no account stands in a
/// higher bag than one before it. So who joins a bag that is no higher than that of the last is
/// walked last, and a walk is made anew by joining its accounts one by one.
pub fn a_walk_is_made_anew_in_its_order()
    ensures arranged { (listing : Listing) → NeverRises listing.order
        → All (λ entry. entry.1 ≤ length listing.thresholds) listing.order
        → in_walk_order listing.thresholds listing.order ≡ listing.order }
    ensures falling { (thresholds : List ℕ) (order : Order)
        → NeverRises (in_walk_order thresholds order) }
    ensures appends { (listing : Listing) (who : AccountId) (score : ℕ)
        → NeverRises (joined listing.order who (bag_of listing.thresholds score))
        → All (λ entry. entry.1 ≤ length listing.thresholds) listing.order
        → inserted listing who score
        ≡ record listing { order = joined listing.order who (bag_of listing.thresholds score) } }
{}

/// Roles stay sound, whoever takes one or leaves one: who nominates names somebody, at most 24,
/// nobody twice and not itself; no commission is above the whole; and there are at most 2,048
/// validators.
pub fn roles_stay_sound()
    ensures none { AreSound [] }
    ensures puts { (roles : RoleList) (who : AccountId) (role : Role) (targets : List AccountId)
        → AreSound roles → CanTake roles who role targets
        → AreSound (with_role roles who role targets) }
    ensures nominates { (roles : RoleList) (who : AccountId) (targets : List AccountId)
        → nominate_refusal roles who targets ≡ None → IsNomination who targets }
    ensures leaves { (roles : RoleList) (who : AccountId) → AreSound roles
        → AreSound (without_role roles who) }
{}
